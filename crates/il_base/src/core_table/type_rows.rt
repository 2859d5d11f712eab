//! The TypeDef rows of the core record (II.22.37).

ghost use Rattle.std.specs.Prelude.{◌≡◌, ◌≤◌, length, IfOk};
ghost use Rattle.il_base.specs.core_table.Record.{type_row, type_rows};

use crate::core_table::shape::CoreType;
use crate::world_model::TypeDefRow;
use crate::{NoMemory, Seq};
use std::alloc::Global;

/// The row of a type whose members begin at these rows.
#[tactic(auto, unfolding(crate::specs::core_table::Record::type_row))]
fn type_row(alloc: Global, ty: &CoreType, field: u32, method: u32) -> Result<TypeDefRow, NoMemory>
    requires field { field ≤ 0x00ff_ffff }
    requires method { method ≤ 0x00ff_ffff }
    ensures { IfOk result (λ row. row ≡ type_row field method ty.now) }
{
    let name = Seq::from_slice(alloc, ty.name.text())?;
    let namespace = Seq::from_slice(alloc, ty.namespace.text())?;
    Ok(TypeDefRow {
        flags: ty.flags,
        name,
        namespace,
        extends: ty.extends,
        field_list_first: field,
        field_list_end: field + ty.members.fields().len() as u32,
        method_list_first: method,
        method_list_end: method + ty.members.methods().len() as u32,
    })
}

/// The TypeDef rows of these types: the members of each begin where those of the one before end.
#[tactic(auto, unfolding(crate::specs::core_table::Record::type_rows))]
pub fn type_rows(alloc: Global, types: &[CoreType]) -> Result<Seq<TypeDefRow>, NoMemory>
    requires { length types.now ≤ 4096 }
    ensures { IfOk result (λ rows. rows ≡ type_rows 1 1 types.now) }
{
    let mut rows = Seq::new(alloc);
    let mut field = 1u32;
    let mut method = 1u32;
    for ty in types {
        let row = type_row(alloc, ty, field, method)?;
        field += ty.members.fields().len() as u32;
        method += ty.members.methods().len() as u32;
        rows.push(row)?;
    }
    Ok(rows)
}
