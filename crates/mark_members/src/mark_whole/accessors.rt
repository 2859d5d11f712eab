//! The accessors of properties and events that a type has (II.22.28).

ghost use Rattle.std.specs.Prelude.{◌≡◌, IfOk};
ghost use Rattle.rules.specs.mark_rules.Properties.{property_accessors, event_accessors};
ghost use Rattle.mark_parts.specs.mark_tables.Assemblies.{all_of, IsMarker};

use il_base::NoMemory;
use mark_parts::mark_rows::rows::{event_owner, property_owner};
use mark_parts::mark_tables::marker::Marker;
use rules::link_rules::RowAt;
use std::alloc::Global;
use virtual_calls::named_members::accessors::accessors;
use virtual_calls::named_members::kinds::Mapped;

/// The accessors of a property, of all kinds, in the order of MethodSemantics; none of a property that no run has.
#[tactic(auto, unfolding(rules::specs::mark_rules::Properties::property_accessors))]
pub fn property_accessors(
    alloc: Global,
    marker: &Marker<'_>,
    at: RowAt,
) -> Result<Vec<RowAt>, NoMemory>
    requires { IsMarker marker.now }
    ensures { IfOk result (λ rows. rows.items ≡ property_accessors (all_of marker.now) at) }
{
    let Some(asm) = marker.assembly_at(at.asm) else {
        return Ok(Vec::new(alloc));
    };
    match property_owner(asm.scope.rec, at.row) {
        Some(_owner) => accessors(alloc, &marker.tables, Mapped::Property, at),
        None => Ok(Vec::new(alloc)),
    }
}

/// The accessors of an event, of all kinds, in the order of MethodSemantics; none of an event that no run has.
#[tactic(auto, unfolding(rules::specs::mark_rules::Properties::event_accessors))]
pub fn event_accessors(
    alloc: Global,
    marker: &Marker<'_>,
    at: RowAt,
) -> Result<Vec<RowAt>, NoMemory>
    requires { IsMarker marker.now }
    ensures { IfOk result (λ rows. rows.items ≡ event_accessors (all_of marker.now) at) }
{
    let Some(asm) = marker.assembly_at(at.asm) else {
        return Ok(Vec::new(alloc));
    };
    match event_owner(asm.scope.rec, at.row) {
        Some(_owner) => accessors(alloc, &marker.tables, Mapped::Event, at),
        None => Ok(Vec::new(alloc)),
    }
}
