//! The methods that types must have for abstract class slots (II.10.1.4), also where an abstract method of a base overrides the slot.

ghost use Rattle.std.specs.Prelude.{◌≡◌, ◌++◌, IfOk, OnOk};
ghost use Rattle.std.specs.List.{flat_map};
ghost use Rattle.rules.specs.link_rules.Cycles.{listed};
ghost use Rattle.rules.specs.mark_rules.Calls.{class_runs, is_below_owner, asked_slot, class_fills};
ghost use Rattle.mark_parts.specs.mark_tables.Assemblies.{all_of, IsMarker};
ghost use Rattle.virtual_calls.specs.Slots.{AreSlots};

use crate::mark_calls::class_calls::{add_class_runs, answers_abstract, is_own_slot};
use crate::mark_calls::found::is_base_of;
use il_base::NoMemory;
use mark_parts::mark_facts::facts::Facts;
use mark_parts::mark_tables::marker::Marker;
use rules::link_rules::RowAt;
use std::alloc::Global;
use type_tables::methods::type_of_method;
use virtual_calls::slots::{Slots, slot_of_method};

/// Whether the type that has a method is a type or one of its bases.
fn is_below_owner(alloc: Global, marker: &Marker<'_>, t: RowAt, b: RowAt) -> Result<bool, NoMemory>
    requires { IsMarker marker.now }
    ensures { IfOk result (λ is. is ≡ is_below_owner (all_of marker.now) t b) }
{
    match type_of_method(&marker.tables, b) {
        Ok(Some(owner)) => is_base_of(alloc, marker, owner, t),
        Ok(None) => Ok(false),
        Err(error) => Err(error),
    }
}

/// The slot that an abstract method asks a type to answer: its own, or, below the type that has it, the one that it overrides.
#[tactic(auto, unfolding(rules::specs::mark_rules::Calls::asked_slot))]
fn asked_slot(
    alloc: Global,
    marker: &Marker<'_>,
    slots: &Slots,
    t: RowAt,
    b: RowAt,
) -> Result<Option<RowAt>, NoMemory>
    requires marker { IsMarker marker.now }
    requires slots { AreSlots (all_of marker.now) slots.now }
    ensures { IfOk result (λ slot. listed slot ≡ asked_slot (all_of marker.now) t b) }
{
    if is_own_slot(marker, slots, b) {
        return Ok(Some(b));
    }
    let below = is_below_owner(alloc, marker, t, b)?;
    if !below {
        return Ok(None);
    }
    Ok(slot_of_method(&marker.tables, slots, b))
}

/// Marks the method that a type has for a slot, if there is one.
#[tactic(auto, using(crate::proofs::lemmas::mark_calls::Lists::none_more))]
fn add_for_slot(
    alloc: Global,
    marker: &Marker<'_>,
    slots: &Slots,
    t: RowAt,
    slot: Option<RowAt>,
    facts: &mut Facts,
) -> Result<(), NoMemory>
    requires marker { IsMarker marker.now }
    requires slots { AreSlots (all_of marker.now) slots.now }
    ensures { OnOk result (facts.new ≡ facts.old ++ flat_map (class_runs (all_of marker.now) t) (listed slot)) }
{
    match slot {
        Some(slot) => add_class_runs(alloc, marker, slots, t, slot, facts),
        None => Ok(()),
    }
}

/// Marks the method that a marked type has for the class slot that a marked abstract method asks it to answer (II.10.1.4).
#[tactic(auto, unfolding(rules::specs::mark_rules::Calls::class_fills), using(crate::proofs::lemmas::mark_calls::Lists::none_more))]
pub fn add_class_fills(
    alloc: Global,
    marker: &Marker<'_>,
    slots: &Slots,
    t: RowAt,
    b: RowAt,
    facts: &mut Facts,
) -> Result<(), NoMemory>
    requires marker { IsMarker marker.now }
    requires slots { AreSlots (all_of marker.now) slots.now }
    ensures { OnOk result (facts.new ≡ facts.old ++ class_fills (all_of marker.now) t b) }
{
    let answers = answers_abstract(marker, t, b);
    if !answers {
        return Ok(());
    }
    let slot = asked_slot(alloc, marker, slots, t, b)?;
    add_for_slot(alloc, marker, slots, t, slot, facts)
}
