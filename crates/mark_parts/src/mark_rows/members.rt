//! The methods, fields, properties and events of a type.

ghost use Rattle.std.specs.Prelude.{◌≡◌, ◌++◌, IfOk, OnOk};
ghost use Rattle.std.specs.List.{flat_map};
ghost use Rattle.rules.specs.type_rules.Rows.{methods_of_type, fields_of_type};
ghost use Rattle.rules.specs.mark_rules.Members.{properties_of_type, events_of_type};
ghost use Rattle.mark_parts.specs.mark_tables.Assemblies.{recs_of, place_of, rec_of, all_of, IsAssembly, IsMarker};
ghost use Rattle.mark_parts.specs.mark_rows.Runs.{properties_at, events_at};

use crate::mark_rows::runs::{Members, add_run, rows_of_run};
use crate::mark_tables::marker::Marker;
use il_base::world_model::{AsmRec, token_of};
use il_base::{NoMemory, table};
use rules::link_rules::RowAt;
use std::alloc::Global;
use type_tables::member_search::owners::Run;

/// The methods of a type's run, in order.
#[tactic(auto, unfolding(rules::specs::type_rules::Rows::methods_of_type), using(crate::proofs::lemmas::mark_rows::Mapping::none_more))]
pub fn methods_of_type(
    alloc: Global,
    marker: &Marker<'_>,
    at: RowAt,
) -> Result<Vec<RowAt>, NoMemory>
    requires { IsMarker marker.now }
    ensures { IfOk result (λ rows. rows.items ≡ methods_of_type (all_of marker.now) at) }
{
    let Some(asm) = marker.assembly_at(at.asm) else {
        return Ok(Vec::new(alloc));
    };
    let Some(t) = asm.scope.rec.type_def.get(at.row as usize) else {
        return Ok(Vec::new(alloc));
    };
    let run = Run {
        first: t.method_list_first,
        end: t.method_list_end,
    };
    let rows = rows_of_run(alloc, asm.scope.rec, Members::Method, at.asm, run)?;
    Ok(rows)
}

/// The fields of a type's run, in order.
#[tactic(auto, unfolding(rules::specs::type_rules::Rows::fields_of_type), using(crate::proofs::lemmas::mark_rows::Mapping::none_more))]
pub fn fields_of_type(alloc: Global, marker: &Marker<'_>, at: RowAt) -> Result<Vec<RowAt>, NoMemory>
    requires { IsMarker marker.now }
    ensures { IfOk result (λ rows. rows.items ≡ fields_of_type (all_of marker.now) at) }
{
    let Some(asm) = marker.assembly_at(at.asm) else {
        return Ok(Vec::new(alloc));
    };
    let Some(t) = asm.scope.rec.type_def.get(at.row as usize) else {
        return Ok(Vec::new(alloc));
    };
    let run = Run {
        first: t.field_list_first,
        end: t.field_list_end,
    };
    let rows = rows_of_run(alloc, asm.scope.rec, Members::Field, at.asm, run)?;
    Ok(rows)
}

/// Adds the properties of a row of PropertyMap, from 0.
fn add_properties(rec: &AsmRec, asm: u32, k: u32, rows: &mut Vec<RowAt>) -> Result<(), NoMemory>
    ensures { OnOk result (rows.new.items ≡ rows.old.items ++ properties_at rec.now asm k) }
{
    match rec.property_map.get(k as usize) {
        None => Ok(()),
        Some(row) => {
            let run = Run {
                first: row.property_list_first,
                end: row.property_list_end,
            };
            add_run(rec, Members::Property, asm, run, rows)
        }
    }
}

/// The properties of rows of PropertyMap, from 0, in order.
fn properties_under(
    alloc: Global,
    rec: &AsmRec,
    asm: u32,
    maps: &[u32],
) -> Result<Vec<RowAt>, NoMemory>
    ensures { IfOk result (λ rows. rows.items ≡ flat_map (properties_at rec.now asm) maps.now) }
{
    let mut rows = Vec::new(alloc);
    for k in maps {
        add_properties(rec, asm, *k, &mut rows)?;
    }
    Ok(rows)
}

/// The properties of a type's runs, in order (II.22.35).
pub fn properties_of_type(
    alloc: Global,
    marker: &Marker<'_>,
    at: RowAt,
) -> Result<Vec<RowAt>, NoMemory>
    requires { IsMarker marker.now }
    ensures { IfOk result (λ rows. rows.items ≡ properties_of_type (all_of marker.now) at) }
{
    let Some(asm) = marker.assembly_at(at.asm) else {
        return Ok(Vec::new(alloc));
    };
    let token = token_of(table::TYPE_DEF, at.row as usize)?;
    let maps = asm.of_types.properties.rows_with(token);
    let rows = properties_under(alloc, asm.scope.rec, at.asm, maps)?;
    Ok(rows)
}

/// Adds the events of a row of EventMap, from 0.
fn add_events(rec: &AsmRec, asm: u32, k: u32, rows: &mut Vec<RowAt>) -> Result<(), NoMemory>
    ensures { OnOk result (rows.new.items ≡ rows.old.items ++ events_at rec.now asm k) }
{
    match rec.event_map.get(k as usize) {
        None => Ok(()),
        Some(row) => {
            let run = Run {
                first: row.event_list_first,
                end: row.event_list_end,
            };
            add_run(rec, Members::Event, asm, run, rows)
        }
    }
}

/// The events of rows of EventMap, from 0, in order.
fn events_under(alloc: Global, rec: &AsmRec, asm: u32, maps: &[u32]) -> Result<Vec<RowAt>, NoMemory>
    ensures { IfOk result (λ rows. rows.items ≡ flat_map (events_at rec.now asm) maps.now) }
{
    let mut rows = Vec::new(alloc);
    for k in maps {
        add_events(rec, asm, *k, &mut rows)?;
    }
    Ok(rows)
}

/// The events of a type's runs, in order (II.22.12).
pub fn events_of_type(alloc: Global, marker: &Marker<'_>, at: RowAt) -> Result<Vec<RowAt>, NoMemory>
    requires { IsMarker marker.now }
    ensures { IfOk result (λ rows. rows.items ≡ events_of_type (all_of marker.now) at) }
{
    let Some(asm) = marker.assembly_at(at.asm) else {
        return Ok(Vec::new(alloc));
    };
    let token = token_of(table::TYPE_DEF, at.row as usize)?;
    let maps = asm.of_types.events.rows_with(token);
    let rows = events_under(alloc, asm.scope.rec, at.asm, maps)?;
    Ok(rows)
}
