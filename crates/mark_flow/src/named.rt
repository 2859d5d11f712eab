//! The members of a type that have one of some names.

ghost use Rattle.std.specs.Prelude.{◌≡◌, ◌++◌, IfOk, OnOk};
ghost use Rattle.std.specs.List.{filter};
ghost use Rattle.rules.specs.mark_rules.Members.{constructors_by, methods_by, fields_by, properties_by, events_by};
ghost use Rattle.rules.specs.mark_rules.FlowMarks.{is_name, is_among, is_method_among, is_field_among, is_property_among, is_event_among, named_members};
ghost use Rattle.mark_parts.specs.mark_tables.Assemblies.{all_of, IsMarker};
ghost use Rattle.mark_flow.specs.Named.{named_methods, named_fields, named_properties, named_events};

use il_base::world_model::AsmRec;
use il_base::{Item, NoMemory, Units};
use mark_members::items::{add_events, add_items, add_properties};
use mark_members::mark_kinds::fields::fields_by;
use mark_members::mark_kinds::mapped::{events_by, properties_by};
use mark_members::mark_kinds::methods::{constructors_by, methods_by};
use mark_parts::mark_facts::kinds::Kind;
use mark_parts::mark_tables::marker::Marker;
use rules::link_rules::RowAt;
use std::alloc::Global;
use type_tables::methods::method_row_at;

/// Whether a text of the code, in UTF-16, is a name of metadata. As for a running program, U+FFFD stands for a surrogate in no pair.
#[tactic(auto, unfolding(rules::specs::step_rules::Objects::bytes_of_units))]
fn is_name(alloc: Global, name: &[u8], text: &[u16]) -> Result<bool, NoMemory>
    ensures { IfOk result (λ is. is ≡ is_name name.now text.now) }
{
    let text = String::from_utf16_lossy(alloc, text)?;
    Ok(name == text.as_bytes())
}

/// Whether a name of metadata is one of some texts in UTF-16.
fn is_among(alloc: Global, names: &[Units], name: &[u8]) -> Result<bool, NoMemory>
    ensures { IfOk result (λ is. is ≡ is_among names.now name.now) }
{
    for text in names {
        let is = is_name(alloc, name, text.as_slice())?;
        if is {
            return Ok(true);
        }
    }
    Ok(false)
}

fn is_method_among(
    alloc: Global,
    all: &[AsmRec],
    names: &[Units],
    at: RowAt,
) -> Result<bool, NoMemory>
    ensures { IfOk result (λ is. is ≡ is_method_among all.now names.now at) }
{
    match method_row_at(all, at) {
        None => Ok(false),
        Some(m) => is_among(alloc, names, m.name.as_slice()),
    }
}

fn is_field_among(
    alloc: Global,
    all: &[AsmRec],
    names: &[Units],
    at: RowAt,
) -> Result<bool, NoMemory>
    ensures { IfOk result (λ is. is ≡ is_field_among all.now names.now at) }
{
    match all.get(at.asm as usize) {
        None => Ok(false),
        Some(rec) => match rec.field.get(at.row as usize) {
            None => Ok(false),
            Some(f) => is_among(alloc, names, f.name.as_slice()),
        },
    }
}

fn is_property_among(
    alloc: Global,
    all: &[AsmRec],
    names: &[Units],
    at: RowAt,
) -> Result<bool, NoMemory>
    ensures { IfOk result (λ is. is ≡ is_property_among all.now names.now at) }
{
    match all.get(at.asm as usize) {
        None => Ok(false),
        Some(rec) => match rec.property.get(at.row as usize) {
            None => Ok(false),
            Some(p) => is_among(alloc, names, p.name.as_slice()),
        },
    }
}

fn is_event_among(
    alloc: Global,
    all: &[AsmRec],
    names: &[Units],
    at: RowAt,
) -> Result<bool, NoMemory>
    ensures { IfOk result (λ is. is ≡ is_event_among all.now names.now at) }
{
    match all.get(at.asm as usize) {
        None => Ok(false),
        Some(rec) => match rec.event.get(at.row as usize) {
            None => Ok(false),
            Some(e) => is_among(alloc, names, e.name.as_slice()),
        },
    }
}

/// Those of these methods that have one of the names.
fn methods_among(
    alloc: Global,
    all: &[AsmRec],
    names: &[Units],
    rows: &[RowAt],
    found: &mut Vec<RowAt>,
) -> Result<(), NoMemory>
    ensures { OnOk result (found.new.items ≡ found.old.items ++ filter (is_method_among all.now names.now) rows.now) }
{
    for at in rows {
        let is = is_method_among(alloc, all, names, *at)?;
        if is {
            found.push(*at)?;
        }
    }
    Ok(())
}

/// Those of these fields that have one of the names.
fn fields_among(
    alloc: Global,
    all: &[AsmRec],
    names: &[Units],
    rows: &[RowAt],
) -> Result<Vec<RowAt>, NoMemory>
    ensures { IfOk result (λ found. found.items ≡ filter (is_field_among all.now names.now) rows.now) }
{
    let mut found = Vec::new(alloc);
    for at in rows {
        let is = is_field_among(alloc, all, names, *at)?;
        if is {
            found.push(*at)?;
        }
    }
    Ok(found)
}

/// Those of these properties that have one of the names.
fn properties_among(
    alloc: Global,
    all: &[AsmRec],
    names: &[Units],
    rows: &[RowAt],
) -> Result<Vec<RowAt>, NoMemory>
    ensures { IfOk result (λ found. found.items ≡ filter (is_property_among all.now names.now) rows.now) }
{
    let mut found = Vec::new(alloc);
    for at in rows {
        let is = is_property_among(alloc, all, names, *at)?;
        if is {
            found.push(*at)?;
        }
    }
    Ok(found)
}

/// Those of these events that have one of the names.
fn events_among(
    alloc: Global,
    all: &[AsmRec],
    names: &[Units],
    rows: &[RowAt],
) -> Result<Vec<RowAt>, NoMemory>
    ensures { IfOk result (λ found. found.items ≡ filter (is_event_among all.now names.now) rows.now) }
{
    let mut found = Vec::new(alloc);
    for at in rows {
        let is = is_event_among(alloc, all, names, *at)?;
        if is {
            found.push(*at)?;
        }
    }
    Ok(found)
}

/// The constructors and methods that kinds name, with one of the names.
#[tactic(auto, using(crate::proofs::Lists::filter_both))]
fn methods_named(
    alloc: Global,
    marker: &Marker<'_>,
    names: &[Units],
    kinds: u32,
    t: RowAt,
) -> Result<Vec<RowAt>, NoMemory>
    requires { IsMarker marker.now }
    ensures { IfOk result (λ found. found.items ≡ filter (is_method_among (all_of marker.now) names.now) (constructors_by (all_of marker.now) kinds t ++ methods_by (all_of marker.now) kinds t)) }
{
    let all = marker.tables.world.recs.as_slice();
    let constructors = constructors_by(alloc, marker, kinds, t)?;
    let methods = methods_by(alloc, marker, kinds, t)?;
    let mut found = Vec::new(alloc);
    methods_among(alloc, all, names, constructors.as_slice(), &mut found)?;
    methods_among(alloc, all, names, methods.as_slice(), &mut found)?;
    Ok(found)
}

/// Adds the constructors and methods that kinds name, with one of the names.
fn add_methods(
    alloc: Global,
    marker: &Marker<'_>,
    names: &[Units],
    kinds: u32,
    t: RowAt,
    items: &mut Vec<Item>,
) -> Result<(), NoMemory>
    requires { IsMarker marker.now }
    ensures { OnOk result (items.new.items ≡ items.old.items ++ named_methods (all_of marker.now) names.now kinds t) }
{
    let rows = methods_named(alloc, marker, names, kinds, t)?;
    add_items(
        marker.tables.world.recs.as_slice(),
        Kind::Method,
        rows.as_slice(),
        items,
    )
}

/// Adds the fields that kinds name, with one of the names.
fn add_fields(
    alloc: Global,
    marker: &Marker<'_>,
    names: &[Units],
    kinds: u32,
    t: RowAt,
    items: &mut Vec<Item>,
) -> Result<(), NoMemory>
    requires { IsMarker marker.now }
    ensures { OnOk result (items.new.items ≡ items.old.items ++ named_fields (all_of marker.now) names.now kinds t) }
{
    let all = marker.tables.world.recs.as_slice();
    let fields = fields_by(alloc, marker, kinds, t)?;
    let rows = fields_among(alloc, all, names, fields.as_slice())?;
    add_items(all, Kind::Field, rows.as_slice(), items)
}

/// Adds the properties that kinds name, with one of the names, and all their accessors.
fn add_named_properties(
    alloc: Global,
    marker: &Marker<'_>,
    names: &[Units],
    kinds: u32,
    t: RowAt,
    items: &mut Vec<Item>,
) -> Result<(), NoMemory>
    requires { IsMarker marker.now }
    ensures { OnOk result (items.new.items ≡ items.old.items ++ named_properties (all_of marker.now) names.now kinds t) }
{
    let all = marker.tables.world.recs.as_slice();
    let properties = properties_by(alloc, marker, kinds, t)?;
    let rows = properties_among(alloc, all, names, properties.as_slice())?;
    add_properties(alloc, marker, rows.as_slice(), items)
}

/// Adds the events that kinds name, with one of the names, and all their accessors.
fn add_named_events(
    alloc: Global,
    marker: &Marker<'_>,
    names: &[Units],
    kinds: u32,
    t: RowAt,
    items: &mut Vec<Item>,
) -> Result<(), NoMemory>
    requires { IsMarker marker.now }
    ensures { OnOk result (items.new.items ≡ items.old.items ++ named_events (all_of marker.now) names.now kinds t) }
{
    let all = marker.tables.world.recs.as_slice();
    let events = events_by(alloc, marker, kinds, t)?;
    let rows = events_among(alloc, all, names, events.as_slice())?;
    add_events(alloc, marker, rows.as_slice(), items)
}

/// Adds the members of a type that kinds name, with one of the names: constructors, methods, fields, and properties and events with
/// all their accessors.
#[tactic(auto, unfolding(rules::specs::mark_rules::FlowMarks::named_members), using(crate::proofs::Lists::four_put))]
pub(crate) fn add_named_members(
    alloc: Global,
    marker: &Marker<'_>,
    names: &[Units],
    kinds: u32,
    t: RowAt,
    items: &mut Vec<Item>,
) -> Result<(), NoMemory>
    requires { IsMarker marker.now }
    ensures { OnOk result (items.new.items ≡ items.old.items ++ named_members (all_of marker.now) names.now kinds t) }
{
    add_methods(alloc, marker, names, kinds, t, items)?;
    add_fields(alloc, marker, names, kinds, t, items)?;
    add_named_properties(alloc, marker, names, kinds, t, items)?;
    add_named_events(alloc, marker, names, kinds, t, items)
}
