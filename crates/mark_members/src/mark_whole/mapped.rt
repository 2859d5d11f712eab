//! Properties and events with all their accessors (II.22.34, II.22.13).

ghost use Rattle.std.specs.Prelude.{◌≡◌, ◌++◌, OnOk};
ghost use Rattle.std.specs.List.{flat_map};
ghost use Rattle.rules.specs.mark_rules.Properties.{whole_property, whole_event};
ghost use Rattle.mark_parts.specs.mark_tables.Assemblies.{all_of, IsMarker};
ghost use Rattle.mark_members.specs.mark_whole.Mapped.{mapped_members};

use crate::mark_whole::accessors::{event_accessors, property_accessors};
use crate::mark_whole::methods::mark_methods;
use il_base::NoMemory;
use mark_parts::mark_facts::facts::Facts;
use mark_parts::mark_facts::kinds::Kind;
use mark_parts::mark_rows::members::{events_of_type, properties_of_type};
use mark_parts::mark_tables::marker::Marker;
use rules::link_rules::RowAt;
use std::alloc::Global;

/// Marks a property and its accessors.
#[tactic(auto, unfolding(rules::specs::mark_rules::Properties::whole_property), using(crate::proofs::lemmas::mark_whole::Lists::first_then))]
pub fn add_property(
    alloc: Global,
    marker: &Marker<'_>,
    at: RowAt,
    facts: &mut Facts,
) -> Result<(), NoMemory>
    requires { IsMarker marker.now }
    ensures { OnOk result (facts.new ≡ facts.old ++ whole_property (all_of marker.now) at) }
{
    let all = marker.tables.world.recs.as_slice();
    let rows = property_accessors(alloc, marker, at)?;
    facts.mark_row(all, Kind::Property, at)?;
    mark_methods(all, rows.as_slice(), facts)
}

/// Marks an event and its accessors.
#[tactic(auto, unfolding(rules::specs::mark_rules::Properties::whole_event), using(crate::proofs::lemmas::mark_whole::Lists::first_then))]
pub fn add_event(
    alloc: Global,
    marker: &Marker<'_>,
    at: RowAt,
    facts: &mut Facts,
) -> Result<(), NoMemory>
    requires { IsMarker marker.now }
    ensures { OnOk result (facts.new ≡ facts.old ++ whole_event (all_of marker.now) at) }
{
    let all = marker.tables.world.recs.as_slice();
    let rows = event_accessors(alloc, marker, at)?;
    facts.mark_row(all, Kind::Event, at)?;
    mark_methods(all, rows.as_slice(), facts)
}

/// Marks properties and their accessors.
pub fn add_properties(
    alloc: Global,
    marker: &Marker<'_>,
    rows: &[RowAt],
    facts: &mut Facts,
) -> Result<(), NoMemory>
    requires { IsMarker marker.now }
    ensures { OnOk result (facts.new ≡ facts.old ++ flat_map (whole_property (all_of marker.now)) rows.now) }
{
    for at in rows {
        add_property(alloc, marker, *at, facts)?;
    }
    Ok(())
}

/// Marks events and their accessors.
pub fn add_events(
    alloc: Global,
    marker: &Marker<'_>,
    rows: &[RowAt],
    facts: &mut Facts,
) -> Result<(), NoMemory>
    requires { IsMarker marker.now }
    ensures { OnOk result (facts.new ≡ facts.old ++ flat_map (whole_event (all_of marker.now)) rows.now) }
{
    for at in rows {
        add_event(alloc, marker, *at, facts)?;
    }
    Ok(())
}

/// Adds all properties and events of a type, with their accessors.
#[tactic(auto, using(crate::proofs::lemmas::mark_whole::Lists::two_put))]
pub(crate) fn add_mapped(
    alloc: Global,
    marker: &Marker<'_>,
    t: RowAt,
    facts: &mut Facts,
) -> Result<(), NoMemory>
    requires { IsMarker marker.now }
    ensures { OnOk result (facts.new ≡ facts.old ++ mapped_members (all_of marker.now) t) }
{
    let properties = properties_of_type(alloc, marker, t)?;
    let events = events_of_type(alloc, marker, t)?;
    add_properties(alloc, marker, properties.as_slice(), facts)?;
    add_events(alloc, marker, events.as_slice(), facts)
}
