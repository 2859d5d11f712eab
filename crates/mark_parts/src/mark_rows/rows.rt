//! Questions on rows: enums, instance fields, and the types that have properties and events.

ghost use Rattle.std.specs.Prelude.{◌≡◌, not, IfOk};
ghost use Rattle.rules.specs.link_rules.Members.{is_in_run};
ghost use Rattle.rules.specs.link_rules.Cycles.{is_core_row_at, is_static_field};
ghost use Rattle.rules.specs.type_rules.Rows.{is_enum, is_instance_field};
ghost use Rattle.rules.specs.mark_rules.Properties.{property_owner, event_owner};
ghost use Rattle.mark_parts.specs.mark_tables.Assemblies.{all_of, IsMarker};

use crate::mark_tables::marker::Marker;
use il_base::core_table::ENUM;
use il_base::world_model::{AsmRec, FIRST_TYPE_DEF, FieldRow, index_in};
use il_base::{NoMemory, field_flags, has_flag, table};
use rules::link_rules::RowAt;
use type_tables::member_search::bases::{base_at, definition};

/// Whether a type definition is System.Enum of the core library.
fn is_enum_row(all: &[AsmRec], at: RowAt) -> bool
    ensures { result ≡ is_core_row_at all.now ENUM at }
{
    at.asm as usize + 1 == all.len()
        && u64::from(FIRST_TYPE_DEF) + u64::from(at.row) == u64::from(ENUM)
}

/// Whether the base of a type is System.Enum (II.14.3).
pub fn is_enum(marker: &Marker<'_>, at: RowAt) -> Result<bool, NoMemory>
    requires { IsMarker marker.now }
    ensures { IfOk result (λ is. is ≡ is_enum (all_of marker.now) at) }
{
    let linked = marker.tables.linked();
    let Some(base) = base_at(&linked, at) else {
        return Ok(false);
    };
    match definition(linked.all, base) {
        Ok(Some(home)) => Ok(is_enum_row(linked.all, home)),
        Ok(None) => Ok(false),
        Err(error) => Err(error),
    }
}

/// Whether a field is an instance's (II.23.1.5).
fn is_instance(f: &FieldRow) -> bool
    ensures { result ≡ not (is_static_field f.now) }
{
    !has_flag(f.flags, field_flags::STATIC)
}

/// Whether a field is there, and an instance's.
pub fn is_instance_field(all: &[AsmRec], at: RowAt) -> bool
    ensures { result ≡ is_instance_field all.now at }
{
    match all.get(at.asm as usize) {
        None => false,
        Some(rec) => match rec.field.get(at.row as usize) {
            None => false,
            Some(f) => is_instance(f),
        },
    }
}

/// Whether a run holds a row, from 1.
fn is_in_run(first: u32, end: u32, row: u64) -> bool
    ensures { result ≡ is_in_run first end row }
{
    u64::from(first) <= row && row < u64::from(end)
}

/// The type whose run has a property, both by their rows from 0; None for a row that no run has.
#[tactic(auto, unfolding(rules::specs::mark_rules::Properties::property_owner))]
pub fn property_owner(rec: &AsmRec, k: u32) -> Option<u32>
    ensures { result ≡ property_owner rec.now k }
{
    let wanted = u64::from(k) + 1;
    for row in rec.property_map.as_slice() {
        if is_in_run(row.property_list_first, row.property_list_end, wanted) {
            return index_in(table::TYPE_DEF, row.parent);
        }
    }
    None
}

/// The type whose run has an event, both by their rows from 0; None for a row that no run has.
#[tactic(auto, unfolding(rules::specs::mark_rules::Properties::event_owner))]
pub fn event_owner(rec: &AsmRec, k: u32) -> Option<u32>
    ensures { result ≡ event_owner rec.now k }
{
    let wanted = u64::from(k) + 1;
    for row in rec.event_map.as_slice() {
        if is_in_run(row.event_list_first, row.event_list_end, wanted) {
            return index_in(table::TYPE_DEF, row.parent);
        }
    }
    None
}
