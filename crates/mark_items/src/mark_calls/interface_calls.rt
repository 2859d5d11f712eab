//! The methods that an interface slot may run (II.12.2), for instantiated types, and for types that must have a method for it.

ghost use Rattle.std.specs.Prelude.{◌≡◌, ◌++◌, map, IfOk, OnOk};
ghost use Rattle.std.specs.List.{flat_map};
ghost use Rattle.std.specs.Option.{option_and_then};
ghost use Rattle.rules.specs.link_rules.Cycles.{listed};
ghost use Rattle.rules.specs.type_rules.Slots.{open_type, slot_of};
ghost use Rattle.rules.specs.type_rules.Dispatch.{class_dispatch};
ghost use Rattle.rules.specs.mark_rules.Places.{marks_method};
ghost use Rattle.rules.specs.mark_rules.Calls.{interface_answer, interface_runs, interface_fills};
ghost use Rattle.mark_parts.specs.mark_tables.Assemblies.{all_of, IsMarker};
ghost use Rattle.virtual_calls.specs.Slots.{AreSlots};
ghost use Rattle.mark_items.specs.mark_calls.Found.{dispatched_from};

use crate::mark_calls::class_calls::{answers_abstract, open_type};
use crate::mark_calls::found::first_found;
use il_base::NoMemory;
use il_base::world_model::AsmRec;
use mark_parts::mark_facts::facts::Facts;
use mark_parts::mark_facts::kinds::Kind;
use mark_parts::mark_tables::marker::Marker;
use rules::link_rules::RowAt;
use std::alloc::Global;
use virtual_calls::class_slots::class_dispatch;
use virtual_calls::slots::{Slots, slot_of_method};

/// The method with which a type answers the slot of a method.
fn dispatched_from(
    alloc: Global,
    marker: &Marker<'_>,
    slots: &Slots,
    t: RowAt,
    m: RowAt,
) -> Result<Option<RowAt>, NoMemory>
    requires marker { IsMarker marker.now }
    requires slots { AreSlots (all_of marker.now) slots.now }
    ensures { IfOk result (λ at. at ≡ option_and_then (class_dispatch (all_of marker.now) (open_type (all_of marker.now) t)) (slot_of (all_of marker.now) m)) }
{
    let Some(slot) = slot_of_method(&marker.tables, slots, m) else {
        return Ok(None);
    };
    let open = open_type(marker.tables.world.recs.as_slice(), t)?;
    class_dispatch(alloc, &marker.tables, slots, &open, slot)
}

/// Adds the method with which a type answers the slot of a method.
fn add_dispatched(
    alloc: Global,
    marker: &Marker<'_>,
    slots: &Slots,
    t: RowAt,
    m: RowAt,
    found: &mut Vec<RowAt>,
) -> Result<(), NoMemory>
    requires marker { IsMarker marker.now }
    requires slots { AreSlots (all_of marker.now) slots.now }
    ensures { OnOk result (found.new.items ≡ found.old.items ++ dispatched_from (all_of marker.now) t m) }
{
    match dispatched_from(alloc, marker, slots, t, m) {
        Ok(Some(at)) => {
            found.push(at)?;
            Ok(())
        }
        Ok(None) => Ok(()),
        Err(error) => Err(error),
    }
}

/// The methods with which a type answers the slots of these methods.
fn all_dispatched(
    alloc: Global,
    marker: &Marker<'_>,
    slots: &Slots,
    t: RowAt,
    first: &[RowAt],
) -> Result<Vec<RowAt>, NoMemory>
    requires marker { IsMarker marker.now }
    requires slots { AreSlots (all_of marker.now) slots.now }
    ensures { IfOk result (λ found. found.items ≡ flat_map (dispatched_from (all_of marker.now) t) first.now) }
{
    let mut found = Vec::new(alloc);
    for m in first {
        add_dispatched(alloc, marker, slots, t, *m, &mut found)?;
    }
    Ok(found)
}

/// Marks these methods.
fn mark_methods(all: &[AsmRec], rows: &[RowAt], facts: &mut Facts) -> Result<(), NoMemory>
    ensures { OnOk result (facts.new ≡ facts.old ++ map (marks_method all.now) rows.now) }
{
    for at in rows {
        facts.mark_row(all, Kind::Method, *at)?;
    }
    Ok(())
}

/// Marks the methods that an interface slot runs for an instantiated type through a marked interface row: those that the search
/// finds first, and those with which the type answers their slots.
#[tactic(auto, unfolding(rules::specs::mark_rules::Calls::interface_runs), using(crate::proofs::lemmas::mark_calls::Lists::both_mapped))]
pub fn add_interface_runs(
    alloc: Global,
    marker: &Marker<'_>,
    slots: &Slots,
    t: RowAt,
    b: RowAt,
    r: RowAt,
    facts: &mut Facts,
) -> Result<(), NoMemory>
    requires marker { IsMarker marker.now }
    requires slots { AreSlots (all_of marker.now) slots.now }
    ensures { OnOk result (facts.new ≡ facts.old ++ interface_runs (all_of marker.now) t b r) }
{
    let all = marker.tables.world.recs.as_slice();
    let first = first_found(alloc, marker, slots, t, b, r)?;
    let then = all_dispatched(alloc, marker, slots, t, first.as_slice())?;
    mark_methods(all, first.as_slice(), facts)?;
    mark_methods(all, then.as_slice(), facts)
}

/// Marks the methods with which a type answers an interface slot through an interface row.
fn add_answers(
    alloc: Global,
    marker: &Marker<'_>,
    slots: &Slots,
    t: RowAt,
    b: RowAt,
    r: RowAt,
    facts: &mut Facts,
) -> Result<(), NoMemory>
    requires marker { IsMarker marker.now }
    requires slots { AreSlots (all_of marker.now) slots.now }
    ensures { OnOk result (facts.new ≡ facts.old ++ map (marks_method (all_of marker.now)) (interface_answer (all_of marker.now) t b r)) }
{
    let first = first_found(alloc, marker, slots, t, b, r)?;
    let then = all_dispatched(alloc, marker, slots, t, first.as_slice())?;
    mark_methods(marker.tables.world.recs.as_slice(), then.as_slice(), facts)
}

/// Marks the methods that a marked type has for an abstract interface slot through a marked interface row (II.10.1.4).
#[tactic(auto, unfolding(rules::specs::mark_rules::Calls::interface_fills), using(crate::proofs::lemmas::mark_calls::Lists::none_more))]
pub fn add_interface_fills(
    alloc: Global,
    marker: &Marker<'_>,
    slots: &Slots,
    t: RowAt,
    b: RowAt,
    r: RowAt,
    facts: &mut Facts,
) -> Result<(), NoMemory>
    requires marker { IsMarker marker.now }
    requires slots { AreSlots (all_of marker.now) slots.now }
    ensures { OnOk result (facts.new ≡ facts.old ++ interface_fills (all_of marker.now) t b r) }
{
    let answers = answers_abstract(marker, t, b);
    if answers {
        return add_answers(alloc, marker, slots, t, b, r, facts);
    }
    Ok(())
}
