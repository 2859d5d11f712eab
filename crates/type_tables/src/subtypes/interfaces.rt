//! The interfaces that the rows of a type name (II.22.23).

ghost use Rattle.std.specs.Prelude.{◌≡◌, ◌++◌, ◌∷◌, [], Some, slice_get, IfOk, OnOk};
ghost use Rattle.std.specs.Option.{option_map_or};
ghost use Rattle.rules.specs.link_rules.Types.{at_row};
ghost use Rattle.rules.specs.link_rules.Cycles.{only_interface, interfaces_in, interfaces_at};
ghost use Rattle.rules.specs.type_rules.Subtypes.{interfaces_of};
ghost use Rattle.type_tables.specs.member_search.Linked.{IsScope};
ghost use Rattle.type_tables.specs.Tables.{AreRowTables, IsTables};
ghost use Rattle.type_tables.specs.subtypes.Named.{with_args, row_interface};

use crate::member_search::bases::{args_of, definition, is_interface};
use crate::member_search::linked::Scope;
use crate::tables::{Rows, Tables};
use il_base::world_model::{AsmRec, TypeExpr, token_of};
use il_base::{NoMemory, table};
use rules::link_rules::RowAt;
use std::alloc::Global;

/// Puts a type at the end, with these arguments put in.
pub(crate) fn add_type(
    alloc: Global,
    args: &[TypeExpr],
    ty: &TypeExpr,
    found: &mut Vec<TypeExpr>,
) -> Result<(), NoMemory>
    ensures { OnOk result (found.new.items ≡ found.old.items ++ with_args args.now (ty.now ∷ [])) }
{
    let made = ty.subst(alloc, args, &[])?;
    found.push(made)?;
    Ok(())
}

/// Puts an interface at the end, with these arguments put in; any other type adds nothing.
fn add_if_interface(
    alloc: Global,
    all: &[AsmRec],
    args: &[TypeExpr],
    ty: &TypeExpr,
    found: &mut Vec<TypeExpr>,
) -> Result<(), NoMemory>
    ensures { OnOk result (found.new.items ≡ found.old.items ++ with_args args.now (only_interface all.now (Some ty.now))) }
{
    let is = is_interface(all, ty)?;
    if is {
        add_type(alloc, args, ty, found)?;
    }
    Ok(())
}

/// Puts the interface that a row, from 0, names at the end, with these arguments put in. A row that names something else
/// adds nothing.
fn add_interface(
    alloc: Global,
    scope: &Scope<'_>,
    args: &[TypeExpr],
    row: u32,
    found: &mut Vec<TypeExpr>,
) -> Result<(), NoMemory>
    requires { IsScope scope.now }
    ensures { OnOk result (found.new.items ≡ found.old.items ++ option_map_or (row_interface scope.now.linked.all.now scope.now.asm scope.now.rec.now args.now) (slice_get scope.now.rec.now.interface_impl row) []) }
{
    let Some(row) = scope.rec.interface_impl.get(row as usize) else {
        return Ok(());
    };
    match scope.token_type(row.interface) {
        Ok(ty) => add_if_interface(alloc, scope.linked.all, args, ty, found),
        Err(_) => Ok(()),
    }
}

/// Puts the interfaces of a type definition, by its row from 0, at the end, with these arguments put in.
fn add_row_interfaces(
    alloc: Global,
    rows: &Rows<'_>,
    args: &[TypeExpr],
    row: u32,
    found: &mut Vec<TypeExpr>,
) -> Result<(), NoMemory>
    requires scope { IsScope rows.now.scope }
    requires tables { AreRowTables rows.now.scope.rec.now rows.now.tables.now }
    ensures { OnOk result (found.new.items ≡ found.old.items ++ with_args args.now (interfaces_in rows.now.scope.linked.all.now (at_row rows.now.scope.asm row) rows.now.scope.rec.now)) }
{
    let token = token_of(table::TYPE_DEF, row as usize)?;
    for k in rows.tables.interfaces.rows_with(token) {
        add_interface(alloc, &rows.scope, args, *k, found)?;
    }
    Ok(())
}

/// Puts the interfaces that the rows of a type definition name at the end, in order, with these arguments put in.
#[tactic(auto, unfolding(rules::specs::link_rules::Cycles::interfaces_at))]
pub(crate) fn add_interfaces(
    alloc: Global,
    tables: &Tables<'_>,
    args: &[TypeExpr],
    at: RowAt,
    found: &mut Vec<TypeExpr>,
) -> Result<(), NoMemory>
    requires { IsTables tables.now }
    ensures { OnOk result (found.new.items ≡ found.old.items ++ with_args args.now (interfaces_at tables.now.world.now.recs at)) }
{
    match tables.rows_at(at.asm) {
        Some(rows) => add_row_interfaces(alloc, &rows, args, at.row, found),
        None => Ok(()),
    }
}

/// Puts the interfaces that the rows of a type name at the end, in order, with the type's arguments put in.
#[tactic(auto, unfolding(rules::specs::type_rules::Subtypes::interfaces_of))]
pub(crate) fn add_interfaces_of(
    alloc: Global,
    tables: &Tables<'_>,
    ty: &TypeExpr,
    found: &mut Vec<TypeExpr>,
) -> Result<(), NoMemory>
    requires { IsTables tables.now }
    ensures { OnOk result (found.new.items ≡ found.old.items ++ interfaces_of tables.now.world.now.recs ty.now) }
{
    match definition(tables.world.recs.as_slice(), ty) {
        Ok(Some(at)) => add_interfaces(alloc, tables, args_of(ty), at, found),
        Ok(None) => Ok(()),
        Err(error) => Err(error),
    }
}

/// The interfaces that the rows of a type name, in order, with the type's arguments put in.
pub fn interfaces_of(
    alloc: Global,
    tables: &Tables<'_>,
    ty: &TypeExpr,
) -> Result<Vec<TypeExpr>, NoMemory>
    requires { IsTables tables.now }
    ensures { IfOk result (λ found. found.items ≡ interfaces_of tables.now.world.now.recs ty.now) }
{
    let mut found = Vec::new(alloc);
    add_interfaces_of(alloc, tables, ty, &mut found)?;
    Ok(found)
}
