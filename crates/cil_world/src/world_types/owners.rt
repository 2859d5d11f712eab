//! The closed type in which a method was found.

ghost use Rattle.std.specs.Prelude.{◌≡◌, IfOk};
ghost use Rattle.std.specs.List.{list_any};
ghost use Rattle.std.specs.Option.{option_and_then};
ghost use Rattle.rules.specs.link_rules.Cycles.{listed, same_row, home_of};
ghost use Rattle.rules.specs.type_rules.Slots.{method_home, type_of_method};
ghost use Rattle.type_tables.specs.Tables.{IsTables};
ghost use Rattle.rules.specs.view_rules.Answers.{owner_among, found_owner, with_owner};

use crate::world_types::bases::with_bases;
use il_base::world_model::{AsmRec, MethodUse, TypeExpr};
use il_base::{MethodId, NoMemory, Seq};
use rules::link_rules::RowAt;
use std::alloc::Global;
use type_tables::member_search::bases::definition;
use type_tables::methods::{method_home, type_of_method};
use type_tables::tables::Tables;

fn same_row(x: RowAt, y: RowAt) -> bool
    ensures { result ≡ same_row x y }
{
    x.asm == y.asm && x.row == y.row
}

/// Whether the definition of a type is that in a row.
fn is_defined_at(all: &[AsmRec], owner: RowAt, ty: &TypeExpr) -> Result<bool, NoMemory>
    ensures { IfOk result (λ yes. yes ≡ list_any (same_row owner) (listed (home_of all.now ty.now))) }
{
    match definition(all, ty) {
        Ok(Some(at)) => Ok(same_row(owner, at)),
        Ok(None) => Ok(false),
        Err(error) => Err(error),
    }
}

/// The first of some types whose definition is that in a row.
fn owner_among(
    alloc: Global,
    all: &[AsmRec],
    owner: RowAt,
    types: &[TypeExpr],
) -> Result<Option<TypeExpr>, NoMemory>
    ensures { IfOk result (λ found. found ≡ owner_among all.now owner types.now) }
{
    for ty in types {
        let found = is_defined_at(all, owner, ty)?;
        if found {
            let copied = ty.copy(alloc)?;
            return Ok(Some(copied));
        }
    }
    Ok(None)
}

/// The definition of the type in whose run a method is.
fn owner_row(tables: &Tables<'_>, method: MethodId) -> Result<Option<RowAt>, NoMemory>
    requires { IsTables tables.now }
    ensures { IfOk result (λ owner. owner ≡ option_and_then (type_of_method tables.now.world.now.recs) (method_home tables.now.world.now.recs method)) }
{
    match method_home(tables.world.recs.as_slice(), method) {
        Ok(Some(at)) => type_of_method(tables, at),
        Ok(None) => Ok(None),
        Err(error) => Err(error),
    }
}

/// The closed type, of a type and its bases, whose definition has a method in its run.
fn found_owner(
    alloc: Global,
    tables: &Tables<'_>,
    ty: &TypeExpr,
    method: MethodId,
) -> Result<Option<TypeExpr>, NoMemory>
    requires { IsTables tables.now }
    ensures { IfOk result (λ owner. owner ≡ found_owner tables.now.world.now.recs ty.now method) }
{
    match owner_row(tables, method) {
        Ok(Some(owner)) => {
            let types = with_bases(alloc, tables, ty)?;
            let found = owner_among(alloc, tables.world.recs.as_slice(), owner, types.as_slice())?;
            Ok(found)
        }
        Ok(None) => Ok(None),
        Err(error) => Err(error),
    }
}

/// A method with the closed type, of a type and its bases, in which it was found (II.12.2).
pub fn with_owner(
    alloc: Global,
    tables: &Tables<'_>,
    ty: &TypeExpr,
    method: MethodId,
) -> Result<Option<MethodUse>, NoMemory>
    requires { IsTables tables.now }
    ensures { IfOk result (λ used. used ≡ with_owner tables.now.world.now.recs ty.now method) }
{
    match found_owner(alloc, tables, ty, method) {
        Ok(Some(owner)) => Ok(Some(MethodUse {
            method,
            owner,
            args: Seq::new(alloc),
        })),
        Ok(None) => Ok(None),
        Err(error) => Err(error),
    }
}
