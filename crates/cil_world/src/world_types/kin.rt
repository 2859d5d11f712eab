//! The nearest type of the core library.

ghost use Rattle.std.specs.Prelude.{◌≡◌, slice_get, IfOk};
ghost use Rattle.std.specs.Option.{option_and_then, option_map};
ghost use Rattle.il_base.specs.declared.core_table.shape.CoreType.{CoreType};
ghost use Rattle.rules.specs.link_rules.Cycles.{home_of};
ghost use Rattle.rules.specs.link_rules.Members.{with_bases};
ghost use Rattle.type_tables.specs.Tables.{IsTables};
ghost use Rattle.rules.specs.view_rules.Answers.{core_name_at, nearest_core};

use crate::world_types::bases::with_bases;
use il_base::NoMemory;
use il_base::core_table::{CoreName, CoreType, TYPES};
use il_base::world_model::{AsmRec, TypeExpr};
use rules::link_rules::RowAt;
use std::alloc::Global;
use type_tables::member_search::bases::definition;
use type_tables::tables::Tables;

/// The name of a type of a table.
fn name_in(types: &[CoreType], row: u32) -> Option<CoreName>
    ensures { result ≡ option_map (λ (t : CoreType). t.name) (slice_get types.now row) }
{
    match types.get(row as usize) {
        None => None,
        Some(ty) => Some(ty.name),
    }
}

/// The name of a type of the core library, which is the last assembly; None for a type of an input.
fn core_name_at(all: &[AsmRec], at: RowAt) -> Option<CoreName>
    ensures { result ≡ core_name_at all.now at }
{
    if at.asm as usize + 1 != all.len() {
        return None;
    }
    name_in(&TYPES, at.row)
}

/// The name of the definition of a type, where that is one of the core library.
fn core_name_of(all: &[AsmRec], ty: &TypeExpr) -> Result<Option<CoreName>, NoMemory>
    ensures { IfOk result (λ name. name ≡ option_and_then (core_name_at all.now) (home_of all.now ty.now)) }
{
    match definition(all, ty) {
        Ok(Some(at)) => Ok(core_name_at(all, at)),
        Ok(None) => Ok(None),
        Err(error) => Err(error),
    }
}

/// The first type of the core library among some types.
fn nearest_core(all: &[AsmRec], types: &[TypeExpr]) -> Result<Option<CoreName>, NoMemory>
    ensures { IfOk result (λ name. name ≡ nearest_core all.now types.now) }
{
    for ty in types {
        match core_name_of(all, ty) {
            Ok(Some(name)) => return Ok(Some(name)),
            Ok(None) => {}
            Err(error) => return Err(error),
        }
    }
    Ok(None)
}

/// The nearest type of the core library among a type and its bases.
pub fn kin(alloc: Global, tables: &Tables<'_>, ty: &TypeExpr) -> Result<Option<CoreName>, NoMemory>
    requires { IsTables tables.now }
    ensures { IfOk result (λ name. name ≡ nearest_core tables.now.world.now.recs (with_bases tables.now.world.now.recs ty.now)) }
{
    let types = with_bases(alloc, tables, ty)?;
    let name = nearest_core(tables.world.recs.as_slice(), types.as_slice())?;
    Ok(name)
}
