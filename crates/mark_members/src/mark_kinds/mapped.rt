//! Properties and events by kinds: public where an accessor is; of a base not private where an accessor isn't.

ghost use Rattle.std.specs.Prelude.{◌≡◌, ◌++◌, IfOk, OnOk};
ghost use Rattle.std.specs.List.{list_any, filter, flat_map};
ghost use Rattle.rules.specs.mark_rules.Members.{has_method_row, accessors_count, properties_by, events_by};
ghost use Rattle.mark_parts.specs.mark_tables.Assemblies.{all_of, IsMarker};
ghost use Rattle.mark_members.specs.mark_kinds.Kinds.{is_public_method, is_open_method, property_counts, event_counts, properties_from, events_from};

use crate::mark_kinds::counts::{is_private_access, is_public_access, pair};
use crate::mark_kinds::lineage::lineage;
use crate::mark_whole::accessors::{event_accessors, property_accessors};
use il_base::world_model::AsmRec;
use il_base::{NoMemory, has_type_flag};
use mark_parts::mark_rows::members::{events_of_type, properties_of_type};
use mark_parts::mark_tables::marker::Marker;
use rules::link_rules::RowAt;
use rules::mark_rules::member_kinds;
use std::alloc::Global;
use type_tables::methods::method_row_at;
use virtual_calls::impls::same_row;

/// Whether a method is there, and public.
fn is_public_at(all: &[AsmRec], at: RowAt) -> bool
    ensures { result ≡ has_method_row all.now is_public_method at }
{
    match method_row_at(all, at) {
        Some(m) => is_public_access(m.flags),
        None => false,
    }
}

/// Whether a method is there, and not private.
fn is_open_at(all: &[AsmRec], at: RowAt) -> bool
    ensures { result ≡ has_method_row all.now is_open_method at }
{
    match method_row_at(all, at) {
        Some(m) => !is_private_access(m.flags),
        None => false,
    }
}

/// Whether one of these methods is public.
fn any_public(all: &[AsmRec], methods: &[RowAt]) -> bool
    ensures { result ≡ list_any (has_method_row all.now is_public_method) methods.now }
{
    methods.iter().any(|at| is_public_at(all, *at))
}

/// Whether one of these methods isn't private.
fn any_open(all: &[AsmRec], methods: &[RowAt]) -> bool
    ensures { result ≡ list_any (has_method_row all.now is_open_method) methods.now }
{
    methods.iter().any(|at| is_open_at(all, *at))
}

/// Whether a property or an event with these accessors counts.
fn accessors_count(all: &[AsmRec], own: bool, two: u32, accessors: &[RowAt]) -> bool
    ensures { result ≡ accessors_count all.now own two accessors.now }
{
    if any_public(all, accessors) {
        return has_type_flag(two, 1);
    }
    has_type_flag(two, 2) && (own || any_open(all, accessors))
}

/// Whether a property counts.
fn property_counts(
    alloc: Global,
    marker: &Marker<'_>,
    own: bool,
    two: u32,
    p: RowAt,
) -> Result<bool, NoMemory>
    requires { IsMarker marker.now }
    ensures { IfOk result (λ is. is ≡ property_counts (all_of marker.now) own two p) }
{
    let accessors = property_accessors(alloc, marker, p)?;
    Ok(accessors_count(
        marker.tables.world.recs.as_slice(),
        own,
        two,
        accessors.as_slice(),
    ))
}

/// Whether an event counts.
fn event_counts(
    alloc: Global,
    marker: &Marker<'_>,
    own: bool,
    two: u32,
    e: RowAt,
) -> Result<bool, NoMemory>
    requires { IsMarker marker.now }
    ensures { IfOk result (λ is. is ≡ event_counts (all_of marker.now) own two e) }
{
    let accessors = event_accessors(alloc, marker, e)?;
    Ok(accessors_count(
        marker.tables.world.recs.as_slice(),
        own,
        two,
        accessors.as_slice(),
    ))
}

/// Adds those of these properties that count.
fn add_properties(
    alloc: Global,
    marker: &Marker<'_>,
    own: bool,
    two: u32,
    rows: &[RowAt],
    found: &mut Vec<RowAt>,
) -> Result<(), NoMemory>
    requires { IsMarker marker.now }
    ensures { OnOk result (found.new.items ≡ found.old.items ++ filter (property_counts (all_of marker.now) own two) rows.now) }
{
    for p in rows {
        let is = property_counts(alloc, marker, own, two, *p)?;
        if is {
            found.push(*p)?;
        }
    }
    Ok(())
}

/// Adds those of these events that count.
fn add_events(
    alloc: Global,
    marker: &Marker<'_>,
    own: bool,
    two: u32,
    rows: &[RowAt],
    found: &mut Vec<RowAt>,
) -> Result<(), NoMemory>
    requires { IsMarker marker.now }
    ensures { OnOk result (found.new.items ≡ found.old.items ++ filter (event_counts (all_of marker.now) own two) rows.now) }
{
    for e in rows {
        let is = event_counts(alloc, marker, own, two, *e)?;
        if is {
            found.push(*e)?;
        }
    }
    Ok(())
}

/// The properties of a type and of these bases that count.
fn properties_along(
    alloc: Global,
    marker: &Marker<'_>,
    t: RowAt,
    two: u32,
    types: &[RowAt],
) -> Result<Vec<RowAt>, NoMemory>
    requires { IsMarker marker.now }
    ensures { IfOk result (λ rows. rows.items ≡ flat_map (properties_from (all_of marker.now) t two) types.now) }
{
    let mut found = Vec::new(alloc);
    for c in types {
        let rows = properties_of_type(alloc, marker, *c)?;
        add_properties(
            alloc,
            marker,
            same_row(t, *c),
            two,
            rows.as_slice(),
            &mut found,
        )?;
    }
    Ok(found)
}

/// The events of a type and of these bases that count.
fn events_along(
    alloc: Global,
    marker: &Marker<'_>,
    t: RowAt,
    two: u32,
    types: &[RowAt],
) -> Result<Vec<RowAt>, NoMemory>
    requires { IsMarker marker.now }
    ensures { IfOk result (λ rows. rows.items ≡ flat_map (events_from (all_of marker.now) t two) types.now) }
{
    let mut found = Vec::new(alloc);
    for c in types {
        let rows = events_of_type(alloc, marker, *c)?;
        add_events(
            alloc,
            marker,
            same_row(t, *c),
            two,
            rows.as_slice(),
            &mut found,
        )?;
    }
    Ok(found)
}

/// The properties of a type and its bases that kinds name.
#[tactic(auto, unfolding(rules::specs::mark_rules::Members::properties_by))]
pub fn properties_by(
    alloc: Global,
    marker: &Marker<'_>,
    kinds: u32,
    t: RowAt,
) -> Result<Vec<RowAt>, NoMemory>
    requires { IsMarker marker.now }
    ensures { IfOk result (λ rows. rows.items ≡ properties_by (all_of marker.now) kinds t) }
{
    let two = pair(
        kinds,
        member_kinds::PUBLIC_PROPERTIES,
        member_kinds::NON_PUBLIC_PROPERTIES,
    );
    let types = lineage(alloc, marker, t)?;
    let found = properties_along(alloc, marker, t, two, types.as_slice())?;
    Ok(found)
}

/// The events of a type and its bases that kinds name.
#[tactic(auto, unfolding(rules::specs::mark_rules::Members::events_by))]
pub fn events_by(
    alloc: Global,
    marker: &Marker<'_>,
    kinds: u32,
    t: RowAt,
) -> Result<Vec<RowAt>, NoMemory>
    requires { IsMarker marker.now }
    ensures { IfOk result (λ rows. rows.items ≡ events_by (all_of marker.now) kinds t) }
{
    let two = pair(
        kinds,
        member_kinds::PUBLIC_EVENTS,
        member_kinds::NON_PUBLIC_EVENTS,
    );
    let types = lineage(alloc, marker, t)?;
    let found = events_along(alloc, marker, t, two, types.as_slice())?;
    Ok(found)
}
