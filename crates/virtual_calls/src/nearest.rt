ghost use Rattle.std.specs.Prelude.{◌≡◌, IfOk};
ghost use Rattle.std.specs.Option.{option_copied};
ghost use Rattle.rules.specs.link_rules.Members.{type_count, base_at, base_of, with_bases};
ghost use Rattle.type_tables.specs.member_search.Wanted.{look_for};
ghost use Rattle.rules.specs.type_rules.Slots.{method_row_at, nearest};
ghost use Rattle.type_tables.specs.Tables.{IsTables};

use il_base::NoMemory;
use il_base::world_model::{MethodDefRow, TypeExpr};
use rules::link_rules::RowAt;
use std::alloc::Global;
use type_tables::member_search::bases;
use type_tables::member_search::counted::{Counted, rows_before};
use type_tables::member_search::members::{Wanted, look_for};
use type_tables::methods::method_row_at;
use type_tables::tables::Tables;

/// How many types the assemblies have: no chain of bases is longer.
#[tactic(auto, unfolding(rules::specs::link_rules::Members::type_count))]
pub fn type_count(tables: &Tables<'_>) -> Result<u32, NoMemory>
    ensures { IfOk result (λ count. count ≡ type_count tables.now.world.now.recs) }
{
    let all = tables.world.recs.as_slice();
    rows_before(all, Counted::Types, all.len())
}

/// The row of a method.
pub fn method_at<'w>(tables: &Tables<'w>, at: RowAt) -> Option<&'w MethodDefRow>
    ensures { option_copied result ≡ method_row_at tables.now.world.now.recs at }
{
    method_row_at(tables.world.recs.as_slice(), at)
}

/// The base of a type definition, as its row names it.
pub fn base_at<'a>(tables: &'a Tables<'_>, at: RowAt) -> Option<&'a TypeExpr>
    requires { IsTables tables.now }
    ensures { option_copied result ≡ base_at tables.now.world.now.recs at }
{
    bases::base_at(&tables.linked(), at)
}

/// The base of a type, with the type's arguments put in.
pub fn base_of(
    alloc: Global,
    tables: &Tables<'_>,
    ty: &TypeExpr,
) -> Result<Option<TypeExpr>, NoMemory>
    requires { IsTables tables.now }
    ensures { IfOk result (λ base. base ≡ base_of tables.now.world.now.recs ty.now) }
{
    bases::base_of(alloc, &tables.linked(), ty)
}

/// The first method of a type with this name and signature.
pub fn match_in(
    alloc: Global,
    tables: &Tables<'_>,
    name: &[u8],
    wanted: &Wanted,
    ty: &TypeExpr,
) -> Result<Option<RowAt>, NoMemory>
    requires { IsTables tables.now }
    ensures { IfOk result (λ at. at ≡ look_for tables.now.world.now.recs name.now wanted.now ty.now) }
{
    look_for(alloc, &tables.linked(), name, wanted, ty)
}

/// The first method with this name and signature in a type and its bases, the nearest first.
pub fn nearest_match(
    alloc: Global,
    tables: &Tables<'_>,
    name: &[u8],
    wanted: &Wanted,
    start: TypeExpr,
) -> Result<Option<RowAt>, NoMemory>
    requires { IsTables tables.now }
    ensures { IfOk result (λ at. at ≡ nearest (look_for tables.now.world.now.recs name.now wanted.now) (with_bases tables.now.world.now.recs start)) }
{
    let count = type_count(tables)?;
    let mut ty = start;
    for _ in 0..count {
        match match_in(alloc, tables, name, wanted, &ty) {
            Ok(Some(at)) => return Ok(Some(at)),
            Ok(None) => {}
            Err(error) => return Err(error),
        }
        match base_of(alloc, tables, &ty) {
            Ok(Some(base)) => ty = base,
            Ok(None) => return Ok(None),
            Err(error) => return Err(error),
        }
    }
    Ok(None)
}
