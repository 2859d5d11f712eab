//! Items of rows, and all that a type itself holds.

ghost use Rattle.std.specs.Prelude.{◌≡◌, ◌++◌, ◌∷◌, [], map, OnOk};
ghost use Rattle.std.specs.List.{flat_map};
ghost use Rattle.rules.specs.mark_rules.Members.{whole_type};
ghost use Rattle.mark_parts.specs.mark_facts.Kinds.{item_at};
ghost use Rattle.mark_parts.specs.mark_tables.Assemblies.{all_of, IsMarker};
ghost use Rattle.mark_members.specs.Items.{property_items, event_items, simple_items};

use crate::mark_whole::accessors::{event_accessors, property_accessors};
use il_base::world_model::AsmRec;
use il_base::{Item, NoMemory};
use mark_parts::mark_facts::kinds::Kind;
use mark_parts::mark_facts::rows::item_at;
use mark_parts::mark_rows::members::{
    events_of_type, fields_of_type, methods_of_type, properties_of_type,
};
use mark_parts::mark_tables::marker::Marker;
use rules::link_rules::RowAt;
use std::alloc::Global;

/// Adds the item of a row.
fn add_item(all: &[AsmRec], kind: Kind, at: RowAt, items: &mut Vec<Item>) -> Result<(), NoMemory>
    ensures { OnOk result (items.new.items ≡ items.old.items ++ item_at all.now kind at ∷ []) }
{
    let item = item_at(all, kind, at)?;
    items.push(item)?;
    Ok(())
}

/// Adds the items of rows.
pub fn add_items(
    all: &[AsmRec],
    kind: Kind,
    rows: &[RowAt],
    items: &mut Vec<Item>,
) -> Result<(), NoMemory>
    ensures { OnOk result (items.new.items ≡ items.old.items ++ map (item_at all.now kind) rows.now) }
{
    for at in rows {
        add_item(all, kind, *at, items)?;
    }
    Ok(())
}

/// Adds a property and its accessors.
#[tactic(auto, using(crate::proofs::Lists::first_then))]
fn add_property(
    alloc: Global,
    marker: &Marker<'_>,
    p: RowAt,
    items: &mut Vec<Item>,
) -> Result<(), NoMemory>
    requires { IsMarker marker.now }
    ensures { OnOk result (items.new.items ≡ items.old.items ++ property_items (all_of marker.now) p) }
{
    let all = marker.tables.world.recs.as_slice();
    let accessors = property_accessors(alloc, marker, p)?;
    add_item(all, Kind::Property, p, items)?;
    add_items(all, Kind::Method, accessors.as_slice(), items)
}

/// Adds an event and its accessors.
#[tactic(auto, using(crate::proofs::Lists::first_then))]
fn add_event(
    alloc: Global,
    marker: &Marker<'_>,
    e: RowAt,
    items: &mut Vec<Item>,
) -> Result<(), NoMemory>
    requires { IsMarker marker.now }
    ensures { OnOk result (items.new.items ≡ items.old.items ++ event_items (all_of marker.now) e) }
{
    let all = marker.tables.world.recs.as_slice();
    let accessors = event_accessors(alloc, marker, e)?;
    add_item(all, Kind::Event, e, items)?;
    add_items(all, Kind::Method, accessors.as_slice(), items)
}

/// Adds properties and their accessors.
pub fn add_properties(
    alloc: Global,
    marker: &Marker<'_>,
    rows: &[RowAt],
    items: &mut Vec<Item>,
) -> Result<(), NoMemory>
    requires { IsMarker marker.now }
    ensures { OnOk result (items.new.items ≡ items.old.items ++ flat_map (property_items (all_of marker.now)) rows.now) }
{
    for p in rows {
        add_property(alloc, marker, *p, items)?;
    }
    Ok(())
}

/// Adds events and their accessors.
pub fn add_events(
    alloc: Global,
    marker: &Marker<'_>,
    rows: &[RowAt],
    items: &mut Vec<Item>,
) -> Result<(), NoMemory>
    requires { IsMarker marker.now }
    ensures { OnOk result (items.new.items ≡ items.old.items ++ flat_map (event_items (all_of marker.now)) rows.now) }
{
    for e in rows {
        add_event(alloc, marker, *e, items)?;
    }
    Ok(())
}

/// Adds a type, its methods and its fields.
#[tactic(auto, using(crate::proofs::Lists::first_and_two))]
fn add_simple(
    alloc: Global,
    marker: &Marker<'_>,
    at: RowAt,
    items: &mut Vec<Item>,
) -> Result<(), NoMemory>
    requires { IsMarker marker.now }
    ensures { OnOk result (items.new.items ≡ items.old.items ++ simple_items (all_of marker.now) at) }
{
    let all = marker.tables.world.recs.as_slice();
    let methods = methods_of_type(alloc, marker, at)?;
    let fields = fields_of_type(alloc, marker, at)?;
    add_item(all, Kind::Type, at, items)?;
    add_items(all, Kind::Method, methods.as_slice(), items)?;
    add_items(all, Kind::Field, fields.as_slice(), items)
}

/// Adds all that a type holds, itself first, with the accessors of its properties and events.
#[tactic(auto, using(crate::proofs::Lists::three_put))]
pub(crate) fn add_whole(
    alloc: Global,
    marker: &Marker<'_>,
    at: RowAt,
    items: &mut Vec<Item>,
) -> Result<(), NoMemory>
    requires { IsMarker marker.now }
    ensures { OnOk result (items.new.items ≡ items.old.items ++ whole_type (all_of marker.now) at) }
{
    let properties = properties_of_type(alloc, marker, at)?;
    let events = events_of_type(alloc, marker, at)?;
    add_simple(alloc, marker, at, items)?;
    add_properties(alloc, marker, properties.as_slice(), items)?;
    add_events(alloc, marker, events.as_slice(), items)
}
