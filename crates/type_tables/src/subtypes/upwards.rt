//! One step up from a type: its base and its interfaces (I.8.7).

ghost use Rattle.std.specs.Prelude.{◌≡◌, ◌++◌, IfOk, OnOk};
ghost use Rattle.std.specs.Option.{option_map};
ghost use Rattle.il_base.specs.declared.world_model.expr.TypeExpr as expr;
ghost use Rattle.rules.specs.link_rules.Members.{array_type, base_at};
ghost use Rattle.rules.specs.link_rules.Cycles.{listed, interfaces_at};
ghost use Rattle.rules.specs.type_rules.Subtypes.{bases_of, interfaces_of, up};
ghost use Rattle.type_tables.specs.Tables.{IsTables};
ghost use Rattle.type_tables.specs.subtypes.Named.{with_args};

use crate::member_search::bases::{args_of, array_type, base_at, definition};
use crate::subtypes::interfaces::{add_interfaces, add_type};
use crate::tables::Tables;
use il_base::NoMemory;
use il_base::world_model::{AsmRec, TypeExpr};
use rules::link_rules::RowAt;
use std::alloc::Global;

/// Puts the base that the row of a type definition names at the end, with these arguments put in.
fn add_base(
    alloc: Global,
    tables: &Tables<'_>,
    args: &[TypeExpr],
    at: RowAt,
    found: &mut Vec<TypeExpr>,
) -> Result<(), NoMemory>
    requires { IsTables tables.now }
    ensures { OnOk result (found.new.items ≡ found.old.items ++ with_args args.now (listed (base_at tables.now.world.now.recs at))) }
{
    let linked = tables.linked();
    match base_at(&linked, at) {
        Some(base) => add_type(alloc, args, base, found),
        None => Ok(()),
    }
}

/// Puts the base and the interfaces of a type definition at the end, with these arguments put in.
fn add_supertypes_of_row(
    alloc: Global,
    tables: &Tables<'_>,
    args: &[TypeExpr],
    at: RowAt,
    found: &mut Vec<TypeExpr>,
) -> Result<(), NoMemory>
    requires { IsTables tables.now }
    ensures { OnOk result (found.new.items ≡ found.old.items ++ (with_args args.now (listed (base_at tables.now.world.now.recs at)) ++ with_args args.now (interfaces_at tables.now.world.now.recs at))) }
{
    add_base(alloc, tables, args, at, found)?;
    add_interfaces(alloc, tables, args, at, found)?;
    Ok(())
}

/// Puts the base and the interfaces of a type at the end, as its rows name them.
#[tactic(auto, unfolding(rules::specs::type_rules::Subtypes::interfaces_of))]
fn add_supertypes_of_type(
    alloc: Global,
    tables: &Tables<'_>,
    ty: &TypeExpr,
    found: &mut Vec<TypeExpr>,
) -> Result<(), NoMemory>
    requires { IsTables tables.now }
    ensures { OnOk result (found.new.items ≡ found.old.items ++ (bases_of tables.now.world.now.recs ty.now ++ interfaces_of tables.now.world.now.recs ty.now)) }
{
    match definition(tables.world.recs.as_slice(), ty) {
        Ok(Some(at)) => add_supertypes_of_row(alloc, tables, args_of(ty), at, found),
        Ok(None) => Ok(()),
        Err(error) => Err(error),
    }
}

/// Puts System.Array at the end.
fn add_array(all: &[AsmRec], found: &mut Vec<TypeExpr>) -> Result<(), NoMemory>
    ensures { OnOk result (found.new.items ≡ found.old.items ++ listed (option_map (λ t. expr.Def t) (array_type all.now))) }
{
    match array_type(all) {
        Ok(Some(id)) => {
            found.push(TypeExpr::Def(id))?;
            Ok(())
        }
        Ok(None) => Ok(()),
        Err(error) => Err(error),
    }
}

/// Adds the types one step above a type: its base, then its interfaces; System.Array for an array.
#[tactic(auto, unfolding(rules::specs::type_rules::Subtypes::up))]
pub(crate) fn add_up(
    alloc: Global,
    tables: &Tables<'_>,
    ty: &TypeExpr,
    found: &mut Vec<TypeExpr>,
) -> Result<(), NoMemory>
    requires { IsTables tables.now }
    ensures { OnOk result (found.new.items ≡ found.old.items ++ up tables.now.world.now.recs ty.now) }
{
    match ty {
        TypeExpr::Array(_) => add_array(tables.world.recs.as_slice(), found),
        TypeExpr::Prim(_) => add_supertypes_of_type(alloc, tables, ty, found),
        TypeExpr::Def(_) => add_supertypes_of_type(alloc, tables, ty, found),
        TypeExpr::Inst(_, _) => add_supertypes_of_type(alloc, tables, ty, found),
        TypeExpr::ByRef(_) => add_supertypes_of_type(alloc, tables, ty, found),
        TypeExpr::Var(_) => add_supertypes_of_type(alloc, tables, ty, found),
        TypeExpr::MVar(_) => add_supertypes_of_type(alloc, tables, ty, found),
        TypeExpr::Mod { .. } => add_supertypes_of_type(alloc, tables, ty, found),
    }
}

/// The types one step above a type: its base, then its interfaces, with the type's arguments put in; for an array System.Array.
pub fn up(alloc: Global, tables: &Tables<'_>, ty: &TypeExpr) -> Result<Vec<TypeExpr>, NoMemory>
    requires { IsTables tables.now }
    ensures { IfOk result (λ found. found.items ≡ up tables.now.world.now.recs ty.now) }
{
    let mut found = Vec::new(alloc);
    add_up(alloc, tables, ty, &mut found)?;
    Ok(found)
}
