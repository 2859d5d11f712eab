//! Properties and events that a member element names, with their accessors.

ghost use Rattle.std.specs.Prelude.{◌≡◌, ◌++◌, OnOk};
ghost use Rattle.std.specs.List.{filter, flat_map};
ghost use Rattle.rules.specs.mark_rules.Attributes.{is_property_called};
ghost use Rattle.rules.specs.mark_rules.Dependencies.{is_event_called};
ghost use Rattle.rules.specs.mark_rules.Members.{properties_of_type, events_of_type};
ghost use Rattle.rules.specs.mark_rules.Properties.{whole_property, whole_event};
ghost use Rattle.mark_parts.specs.mark_tables.Assemblies.{all_of, IsMarker};

use il_base::NoMemory;
use mark_members::called_members::mapped::{events_called, properties_called};
use mark_members::mark_whole::mapped::{add_events, add_properties};
use mark_parts::mark_facts::facts::Facts;
use mark_parts::mark_rows::members::{events_of_type, properties_of_type};
use mark_parts::mark_tables::marker::Marker;
use rules::link_rules::RowAt;
use std::alloc::Global;

/// Marks the properties of a type that have this name, with their accessors.
pub(crate) fn add_properties_called(
    alloc: Global,
    marker: &Marker<'_>,
    t: RowAt,
    name: &[u8],
    facts: &mut Facts,
) -> Result<(), NoMemory>
    requires { IsMarker marker.now }
    ensures { OnOk result (facts.new ≡ facts.old ++ flat_map (whole_property (all_of marker.now)) (filter (is_property_called (all_of marker.now) name.now) (properties_of_type (all_of marker.now) t))) }
{
    let rows = properties_of_type(alloc, marker, t)?;
    let found = properties_called(
        alloc,
        marker.tables.world.recs.as_slice(),
        name,
        rows.as_slice(),
    )?;
    add_properties(alloc, marker, found.as_slice(), facts)
}

/// Marks the events of a type that have this name, with their accessors.
pub(crate) fn add_events_called(
    alloc: Global,
    marker: &Marker<'_>,
    t: RowAt,
    name: &[u8],
    facts: &mut Facts,
) -> Result<(), NoMemory>
    requires { IsMarker marker.now }
    ensures { OnOk result (facts.new ≡ facts.old ++ flat_map (whole_event (all_of marker.now)) (filter (is_event_called (all_of marker.now) name.now) (events_of_type (all_of marker.now) t))) }
{
    let rows = events_of_type(alloc, marker, t)?;
    let found = events_called(
        alloc,
        marker.tables.world.recs.as_slice(),
        name,
        rows.as_slice(),
    )?;
    add_events(alloc, marker, found.as_slice(), facts)
}
