//! The needs of a marked item in a row.

ghost use Rattle.std.specs.Prelude.{◌≡◌, ◌++◌, OnOk};
ghost use Rattle.rules.specs.mark_rules.Marking.{row_needs};
ghost use Rattle.mark_parts.specs.mark_tables.Assemblies.{all_of, IsMarker};
ghost use Rattle.mark_items.specs.mark_steps.Rows.{type_row_needs, method_row_needs, method_call_needs, field_row_needs};

use crate::mark_calls::overrides::add_overrides;
use crate::mark_needs::code::add_makes;
use crate::mark_needs::members::{add_accessed, add_event_needs, add_property_needs};
use crate::mark_needs::methods::{add_field_starts, add_method_needs, add_method_starts};
use crate::mark_needs::types::{add_field_needs, add_impl_needs, add_layout_needs, add_type_needs};
use il_base::{Item, NoMemory};
use mark_parts::mark_facts::facts::Facts;
use mark_parts::mark_tables::marker::Marker;
use rules::link_rules::RowAt;
use std::alloc::Global;

/// Adds the needs of a marked type in a row.
#[tactic(auto, using(crate::proofs::lemmas::mark_steps::Lists::two_put))]
fn add_type(
    alloc: Global,
    marker: &Marker<'_>,
    at: RowAt,
    facts: &mut Facts,
) -> Result<(), NoMemory>
    requires { IsMarker marker.now }
    ensures { OnOk result (facts.new ≡ facts.old ++ type_row_needs (all_of marker.now) at) }
{
    add_type_needs(alloc, marker, at, facts)?;
    add_layout_needs(alloc, marker, at, facts)
}

/// Adds the facts on the types that a marked method makes, the methods that it overrides, and the initializer of its type.
#[tactic(auto, using(crate::proofs::lemmas::mark_steps::Lists::two_put))]
fn add_calls(
    alloc: Global,
    marker: &Marker<'_>,
    at: RowAt,
    facts: &mut Facts,
) -> Result<(), NoMemory>
    requires { IsMarker marker.now }
    ensures { OnOk result (facts.new ≡ facts.old ++ method_call_needs (all_of marker.now) at) }
{
    add_method_needs(alloc, marker, at, facts)?;
    add_makes(marker, at, facts)?;
    add_overrides(alloc, marker, at, facts)
}

/// Adds the needs of a marked method in a row.
#[tactic(auto, using(crate::proofs::lemmas::mark_steps::Lists::two_put))]
fn add_method(
    alloc: Global,
    marker: &Marker<'_>,
    at: RowAt,
    facts: &mut Facts,
) -> Result<(), NoMemory>
    requires { IsMarker marker.now }
    ensures { OnOk result (facts.new ≡ facts.old ++ method_row_needs (all_of marker.now) at) }
{
    add_calls(alloc, marker, at, facts)?;
    add_method_starts(alloc, marker, at, facts)?;
    add_accessed(marker, at, facts)
}

/// Adds the needs of a marked field in a row.
#[tactic(auto, using(crate::proofs::lemmas::mark_steps::Lists::two_put))]
fn add_field(
    alloc: Global,
    marker: &Marker<'_>,
    at: RowAt,
    facts: &mut Facts,
) -> Result<(), NoMemory>
    requires { IsMarker marker.now }
    ensures { OnOk result (facts.new ≡ facts.old ++ field_row_needs (all_of marker.now) at) }
{
    add_field_needs(alloc, marker, at, facts)?;
    add_field_starts(alloc, marker, at, facts)
}

/// Adds the needs of a marked item in a row, without those of its attributes, its dependencies and descriptors.
#[tactic(auto, using(crate::proofs::lemmas::mark_steps::Lists::none_more))]
pub fn add_row_needs(
    alloc: Global,
    marker: &Marker<'_>,
    item: Item,
    at: RowAt,
    facts: &mut Facts,
) -> Result<(), NoMemory>
    requires { IsMarker marker.now }
    ensures { OnOk result (facts.new ≡ facts.old ++ row_needs (all_of marker.now) item at) }
{
    match item {
        Item::Asm(_) => Ok(()),
        Item::Typ(_) => add_type(alloc, marker, at, facts),
        Item::Method(_) => add_method(alloc, marker, at, facts),
        Item::Field(_) => add_field(alloc, marker, at, facts),
        Item::Prop(_) => add_property_needs(alloc, marker, at, facts),
        Item::Event(_) => add_event_needs(alloc, marker, at, facts),
        Item::Impl(_) => add_impl_needs(alloc, marker, at, facts),
    }
}
