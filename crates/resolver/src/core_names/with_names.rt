//! The core library with more types.

ghost use Rattle.std.specs.Prelude.{◌≡◌, ◌+◌, ◌++◌, map, OnOk, IfOk};
ghost use Rattle.rules.specs.link_rules.CoreNames.{added_row, core_with};

use il_base::core_table::{OBJECT, STATIC_TYPE};
use il_base::world_model::{AsmRec, TypeDefRow};
use il_base::{NoMemory, Seq};
use rules::link_rules::CoreTypeName;
use std::alloc::Global;

/// The row past the last of `count` rows.
fn row_behind(count: usize) -> Result<u32, NoMemory>
    ensures { IfOk result (λ row. row ≡ count + 1) }
{
    match u32::try_from(count) {
        Ok(n) if n < u32::MAX => Ok(n + 1),
        _ => Err(NoMemory),
    }
}

/// A type without members (II.22.37).
fn added_row(alloc: Global, core: &AsmRec, name: &CoreTypeName) -> Result<TypeDefRow, NoMemory>
    ensures { IfOk result (λ row. row ≡ added_row core.now name.now) }
{
    let field = row_behind(core.field.len())?;
    let method = row_behind(core.method_def.len())?;
    Ok(TypeDefRow {
        flags: STATIC_TYPE,
        name: Seq::from_slice(alloc, name.name.as_slice())?,
        namespace: Seq::from_slice(alloc, name.namespace.as_slice())?,
        extends: OBJECT,
        field_list_first: field,
        field_list_end: field,
        method_list_first: method,
        method_list_end: method,
    })
}

/// Appends a type without members to those of the core library for each of these names.
#[tactic(auto, unfolding(rules::specs::link_rules::CoreNames::core_with))]
pub fn add_names(alloc: Global, core: &mut AsmRec, names: &[CoreTypeName]) -> Result<(), NoMemory>
    ensures { OnOk result (core.new ≡ core_with core.old names.now) }
{
    for name in names {
        let row = added_row(alloc, core, name)?;
        core.type_def.push(row)?;
    }
    Ok(())
}
