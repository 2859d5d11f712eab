//! The needs of a marked property or event, and the property or event of an accessor (II.22.28, II.22.34, II.22.13).

ghost use Rattle.std.specs.Prelude.{◌≡◌, ◌++◌, [], slice_get, OnOk};
ghost use Rattle.std.specs.List.{flat_map};
ghost use Rattle.std.specs.Option.{option_map_or};
ghost use Rattle.rules.specs.mark_rules.Properties.{property_owner, event_owner, owned, property_needs, event_needs, accessed};
ghost use Rattle.mark_parts.specs.mark_tables.Assemblies.{all_of, IsMarker};
ghost use Rattle.mark_items.specs.mark_needs.Accessors.{property_facts, event_facts, association_facts};

use crate::mark_needs::types::mark_owner;
use il_base::world_model::{AsmRec, index_in, token_of};
use il_base::{NoMemory, table};
use mark_parts::items::{add_parts_of_event, add_parts_of_property};
use mark_parts::mark_facts::facts::Facts;
use mark_parts::mark_facts::kinds::Kind;
use mark_parts::mark_facts::parts::Parts;
use mark_parts::mark_rows::rows::{event_owner, property_owner};
use mark_parts::mark_tables::marker::Marker;
use rules::link_rules::RowAt;
use std::alloc::Global;
use type_tables::methods::has_owner;

/// Marks the type of a property.
fn add_property_owner(marker: &Marker<'_>, at: RowAt, facts: &mut Facts) -> Result<(), NoMemory>
    requires { IsMarker marker.now }
    ensures { OnOk result (facts.new ≡ facts.old ++ owned (all_of marker.now) property_owner at) }
{
    let Some(asm) = marker.assembly_at(at.asm) else {
        return Ok(());
    };
    let owner = property_owner(asm.scope.rec, at.row);
    mark_owner(marker.tables.world.recs.as_slice(), at.asm, owner, facts)
}

/// Marks the type of an event.
fn add_event_owner(marker: &Marker<'_>, at: RowAt, facts: &mut Facts) -> Result<(), NoMemory>
    requires { IsMarker marker.now }
    ensures { OnOk result (facts.new ≡ facts.old ++ owned (all_of marker.now) event_owner at) }
{
    let Some(asm) = marker.assembly_at(at.asm) else {
        return Ok(());
    };
    let owner = event_owner(asm.scope.rec, at.row);
    mark_owner(marker.tables.world.recs.as_slice(), at.asm, owner, facts)
}

/// Adds the needs of a marked property: its type, and the types of its signature.
#[tactic(auto, unfolding(rules::specs::mark_rules::Properties::property_needs), using(crate::proofs::lemmas::mark_needs::Lists::two_put))]
pub fn add_property_needs(
    alloc: Global,
    marker: &Marker<'_>,
    at: RowAt,
    facts: &mut Facts,
) -> Result<(), NoMemory>
    requires { IsMarker marker.now }
    ensures { OnOk result (facts.new ≡ facts.old ++ property_needs (all_of marker.now) at) }
{
    let mut parts = Parts::new(alloc);
    add_parts_of_property(alloc, marker, at, &mut parts)?;
    add_property_owner(marker, at, facts)?;
    parts.mark(facts)
}

/// Adds the needs of a marked event: its type, and its event type.
#[tactic(auto, unfolding(rules::specs::mark_rules::Properties::event_needs), using(crate::proofs::lemmas::mark_needs::Lists::two_put))]
pub fn add_event_needs(
    alloc: Global,
    marker: &Marker<'_>,
    at: RowAt,
    facts: &mut Facts,
) -> Result<(), NoMemory>
    requires { IsMarker marker.now }
    ensures { OnOk result (facts.new ≡ facts.old ++ event_needs (all_of marker.now) at) }
{
    let mut parts = Parts::new(alloc);
    add_parts_of_event(alloc, marker, at, &mut parts)?;
    add_event_owner(marker, at, facts)?;
    parts.mark(facts)
}

/// Marks the property that a token names, where a run has it.
fn mark_property(
    all: &[AsmRec],
    rec: &AsmRec,
    asm: u32,
    association: u32,
    facts: &mut Facts,
) -> Result<(), NoMemory>
    ensures { OnOk result (facts.new ≡ facts.old ++ property_facts all.now rec.now asm association) }
{
    let Some(row) = index_in(table::PROPERTY, association) else {
        return Ok(());
    };
    match property_owner(rec, row) {
        Some(_owner) => facts.mark_row(all, Kind::Property, RowAt { asm, row }),
        None => Ok(()),
    }
}

/// Marks the event that a token names, where a run has it.
fn mark_event(
    all: &[AsmRec],
    rec: &AsmRec,
    asm: u32,
    association: u32,
    facts: &mut Facts,
) -> Result<(), NoMemory>
    ensures { OnOk result (facts.new ≡ facts.old ++ event_facts all.now rec.now asm association) }
{
    let Some(row) = index_in(table::EVENT, association) else {
        return Ok(());
    };
    match event_owner(rec, row) {
        Some(_owner) => facts.mark_row(all, Kind::Event, RowAt { asm, row }),
        None => Ok(()),
    }
}

/// Marks the property or event in a row, from 0, of MethodSemantics.
#[tactic(auto, using(crate::proofs::lemmas::mark_needs::Lists::two_put))]
fn mark_association(
    all: &[AsmRec],
    rec: &AsmRec,
    asm: u32,
    k: u32,
    facts: &mut Facts,
) -> Result<(), NoMemory>
    ensures { OnOk result (facts.new ≡ facts.old ++ option_map_or (association_facts all.now rec.now asm) (slice_get rec.now.method_semantics k) []) }
{
    match rec.method_semantics.get(k as usize) {
        None => Ok(()),
        Some(row) => {
            mark_property(all, rec, asm, row.association, facts)?;
            mark_event(all, rec, asm, row.association, facts)
        }
    }
}

/// Marks the properties and events in rows, from 0, of MethodSemantics.
fn mark_associations(
    all: &[AsmRec],
    rec: &AsmRec,
    asm: u32,
    rows: &[u32],
    facts: &mut Facts,
) -> Result<(), NoMemory>
    ensures { OnOk result (facts.new ≡ facts.old ++ flat_map (λ k. option_map_or (association_facts all.now rec.now asm) (slice_get rec.now.method_semantics k) []) rows.now) }
{
    for k in rows {
        mark_association(all, rec, asm, *k, facts)?;
    }
    Ok(())
}

/// Marks the properties and events of which a marked method is an accessor.
pub fn add_accessed(marker: &Marker<'_>, at: RowAt, facts: &mut Facts) -> Result<(), NoMemory>
    requires { IsMarker marker.now }
    ensures { OnOk result (facts.new ≡ facts.old ++ accessed (all_of marker.now) at) }
{
    let Some(asm) = marker.assembly_at(at.asm) else {
        return Ok(());
    };
    let rec = asm.scope.rec;
    let owned = has_owner(rec, asm.of_types, at.row);
    if !owned {
        return Ok(());
    }
    let token = token_of(table::METHOD_DEF, at.row as usize)?;
    let rows = asm.owners.accessors.rows_with(token);
    let all = marker.tables.world.recs.as_slice();
    mark_associations(all, rec, at.asm, rows, facts)?;
    Ok(())
}
