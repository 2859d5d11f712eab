//! The kinds of all type definitions, made once.

ghost use Rattle.std.specs.Prelude.{◌≡◌, ◌++◌, map, filter, IfOk, OnOk};
ghost use Rattle.rules.specs.type_rules.Rows.{is_enum, is_instance_field, fields_of_type};
ghost use Rattle.il_base.specs.declared.core_table.names.CoreName.TheVariants as core;
ghost use Rattle.mark_parts.specs.mark_tables.Assemblies.{all_of, IsMarker};
ghost use Rattle.rules.specs.view_rules.Members.{core_type_row};
ghost use Rattle.rules.specs.view_rules.Layouts.{field_number};
ghost use Rattle.cil_world.specs.world_layouts.Kinds.{handle_at, kind_at, kinds_in, kinds_from};
ghost use Rattle.cil_world.specs.world_layouts.Handles.{AreHandleRows};

use crate::world_core::core_type_row;
use crate::world_layouts::kinds::{Handle, TypeKind};
use il_base::core_table::CoreName;
use il_base::world_model::AsmRec;
use il_base::{NoMemory, Seq};
use mark_parts::mark_rows::members::fields_of_type;
use mark_parts::mark_rows::rows::{is_enum, is_instance_field};
use mark_parts::mark_tables::marker::Marker;
use rules::link_rules::RowAt;
use std::alloc::Global;
use type_tables::member_search::counted::{Counted, row_of, rows_before, sum};
use type_tables::subtypes::references::is_value_type;

/// The rows of the two handles among the types of the core library, from 0.
#[derive(Clone, Copy, Debug)]
pub(crate) struct HandleRows {
    of_type: u32,
    of_field: u32,
}

/// Their rows in the core library's table.
pub(crate) fn handle_rows() -> HandleRows
    ensures { AreHandleRows result }
{
    HandleRows {
        of_type: core_type_row(CoreName::RuntimeTypeHandle),
        of_field: core_type_row(CoreName::RuntimeFieldHandle),
    }
}

/// Which of the handles a type definition is.
fn handle_at(all: &[AsmRec], rows: HandleRows, at: RowAt) -> Option<Handle>
    requires { AreHandleRows rows }
    ensures { result ≡ handle_at all.now at }
{
    if at.asm as usize + 1 != all.len() {
        return None;
    }
    if at.row == rows.of_type {
        return Some(Handle::OfType);
    }
    if at.row == rows.of_field {
        return Some(Handle::OfField);
    }
    None
}

/// The id of a field.
fn field_number(all: &[AsmRec], at: RowAt) -> Result<u32, NoMemory>
    ensures { IfOk result (λ n. n ≡ field_number all.now at) }
{
    let before = rows_before(all, Counted::Fields, at.asm as usize)?;
    sum(before, at.row as usize)
}

/// The ids of the instance fields among some fields, in their order.
fn instance_numbers(alloc: Global, all: &[AsmRec], fields: &[RowAt]) -> Result<Seq<u32>, NoMemory>
    ensures { IfOk result (λ ns. ns ≡ map (field_number all.now) (filter (is_instance_field all.now) fields.now)) }
{
    let mut numbers = Seq::new(alloc);
    for at in fields {
        if is_instance_field(all, *at) {
            let number = field_number(all, *at)?;
            numbers.push(number)?;
        }
    }
    Ok(numbers)
}

/// What is kept of a type definition.
#[tactic(auto, unfolding(crate::specs::world_layouts::Kinds::kind_at))]
fn kind_at(
    alloc: Global,
    marker: &Marker<'_>,
    rows: HandleRows,
    at: RowAt,
) -> Result<TypeKind, NoMemory>
    requires is { IsMarker marker.now }
    requires rows { AreHandleRows rows }
    ensures { IfOk result (λ kind. kind ≡ kind_at (all_of marker.now) at) }
{
    let all = marker.tables.world.recs.as_slice();
    let value = is_value_type(&marker.tables, at)?;
    let enumeration = is_enum(marker, at)?;
    let own = fields_of_type(alloc, marker, at)?;
    let fields = instance_numbers(alloc, all, own.as_slice())?;
    Ok(TypeKind {
        value,
        enumeration,
        handle: handle_at(all, rows, at),
        fields,
    })
}

/// Adds what is kept of the types of an assembly, by its place.
fn add_kinds(
    alloc: Global,
    marker: &Marker<'_>,
    rows: HandleRows,
    asm: u32,
    rec: &AsmRec,
    kinds: &mut Vec<TypeKind>,
) -> Result<(), NoMemory>
    requires is { IsMarker marker.now }
    requires rows { AreHandleRows rows }
    ensures { OnOk result (kinds.new.items ≡ kinds.old.items ++ kinds_in (all_of marker.now) asm rec.now) }
{
    let count = row_of(rec.type_def.len())?;
    for row in 0..count {
        let kind = kind_at(alloc, marker, rows, RowAt { asm, row })?;
        kinds.push(kind)?;
    }
    Ok(())
}

/// What is kept of each type definition of a world, in the order of ids.
pub(crate) fn all_kinds(alloc: Global, marker: &Marker<'_>) -> Result<Vec<TypeKind>, NoMemory>
    requires { IsMarker marker.now }
    ensures { IfOk result (λ kinds. kinds.items ≡ kinds_from (all_of marker.now) 0 (all_of marker.now)) }
{
    let rows = handle_rows();
    let mut kinds = Vec::new(alloc);
    for (a, rec) in marker.tables.world.recs.as_slice().iter().enumerate() {
        let asm = row_of(a)?;
        add_kinds(alloc, marker, rows, asm, rec, &mut kinds)?;
    }
    Ok(kinds)
}
