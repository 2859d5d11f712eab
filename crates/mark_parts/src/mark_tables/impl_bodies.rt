//! MethodImpl rows by the methods that are their bodies (II.22.27).

ghost use Rattle.std.specs.Prelude.{◌≡◌, slice_get, Some, IfOk};
ghost use Rattle.type_tables.specs.Groups.{AreGroups};
ghost use Rattle.type_tables.specs.Tables.{IsTables};
ghost use Rattle.type_tables.specs.Uses.{use_in};
ghost use Rattle.mark_parts.specs.mark_tables.Impls.{number_of, body_numbers, AreImplBodies};

use il_base::NoMemory;
use il_base::world_model::AsmRec;
use std::alloc::Global;
use type_tables::groups::Groups;
use type_tables::member_search::counted::row_of;
use type_tables::methods::use_at;
use type_tables::tables::Tables;

/// The number of the method that a token names; 0 for one that names none.
fn number_of(tables: &Tables<'_>, asm: u32, token: u32) -> u32
    requires { IsTables tables.now }
    ensures { result ≡ number_of (use_in tables.now.world.now.recs asm token) }
{
    match use_at(tables, asm, token) {
        Some(body) => body.method.0,
        None => 0,
    }
}

/// The numbers of the bodies of an assembly's rows.
fn body_numbers(
    alloc: Global,
    tables: &Tables<'_>,
    asm: u32,
    rec: &AsmRec,
) -> Result<Vec<u32>, NoMemory>
    requires { IsTables tables.now }
    ensures { IfOk result (λ numbers. numbers.items ≡ body_numbers tables.now.world.now.recs asm rec.now) }
{
    let mut numbers = Vec::new(alloc);
    for row in rec.method_impl.as_slice() {
        numbers.push(number_of(tables, asm, row.body))?;
    }
    Ok(numbers)
}

/// An assembly's rows by the numbers of their bodies.
fn groups_in(alloc: Global, tables: &Tables<'_>, asm: u32, rec: &AsmRec) -> Result<Groups, NoMemory>
    requires { IsTables tables.now }
    ensures { IfOk result (AreGroups (body_numbers tables.now.world.now.recs asm rec.now)) }
{
    let numbers = body_numbers(alloc, tables, asm, rec)?;
    Groups::of(alloc, numbers.as_slice())
}

/// The rows of each assembly by the numbers of their bodies.
pub(crate) fn impl_bodies(alloc: Global, tables: &Tables<'_>) -> Result<Vec<Groups>, NoMemory>
    requires { IsTables tables.now }
    ensures { IfOk result (λ impls. AreImplBodies tables.now.world.now.recs impls.items) }
{
    let all = tables.world.recs.as_slice();
    let mut impls = Vec::new(alloc);
    for (a, rec) in all.iter().enumerate() {
        let asm = row_of(a)?;
        let own = groups_in(alloc, tables, asm, rec)?;
        impls.push(own)?;
    }
    Ok(impls)
}
