//! The facts that follow from a type with class slots that are known (II.10.3).

ghost use Rattle.std.specs.Prelude.{◌≡◌, ◌++◌, OnOk};
ghost use Rattle.std.specs.List.{flat_map};
ghost use Rattle.base_laws.specs.known_laws.Known.{slot_gives, own_slots};
ghost use Rattle.marking.specs.mark_known.Facts.{recs_in, knows, IsKnown, class_by};

use crate::mark_known::known::{Known, is_known_row};
use crate::mark_known::own::own_slots;
use il_base::NoMemory;
use mark_items::mark_calls::abstract_slots::add_class_fills;
use mark_items::mark_calls::class_calls::add_class_runs;
use mark_parts::mark_facts::facts::Facts;
use mark_parts::mark_facts::kinds::Kind;
use rules::link_rules::RowAt;
use std::alloc::Global;

/// The rules for a type and a slot.
#[derive(Clone, Copy, Debug, PartialEq, Eq)]
pub enum Rule {
    /// The method that a call of the slot runs for an instantiated type.
    Runs,
    /// The method that a marked type has for the slot of an abstract method (II.10.1.4).
    Fills,
}

/// Adds the facts that a type gives with a class slot.
fn add_class(
    alloc: Global,
    k: &Known<'_>,
    rule: Rule,
    t: RowAt,
    b: RowAt,
    facts: &mut Facts,
) -> Result<(), NoMemory>
    requires { IsKnown k.now }
    ensures { OnOk result (facts.new ≡ facts.old ++ class_by rule (recs_in k.now) t b) }
{
    match rule {
        Rule::Runs => add_class_runs(alloc, k.marker, k.slots, t, b, facts),
        Rule::Fills => add_class_fills(alloc, k.marker, k.slots, t, b, facts),
    }
}

/// Adds the facts that a type gives with a class slot, where the slot is known.
#[tactic(auto, using(crate::proofs::lemmas::mark_known::Lists::none_more))]
fn add_slot(
    alloc: Global,
    k: &Known<'_>,
    rule: Rule,
    t: RowAt,
    b: RowAt,
    facts: &mut Facts,
) -> Result<(), NoMemory>
    requires { IsKnown k.now }
    ensures { OnOk result (facts.new ≡ facts.old ++ slot_gives (recs_in k.now) (knows k.now) (class_by rule (recs_in k.now) t) b) }
{
    let is = is_known_row(k, Kind::Method, b)?;
    if is {
        return add_class(alloc, k, rule, t, b, facts);
    }
    Ok(())
}

/// Adds the facts that a type gives with those of these class slots that are known.
fn add_slots(
    alloc: Global,
    k: &Known<'_>,
    rule: Rule,
    t: RowAt,
    bs: &[RowAt],
    facts: &mut Facts,
) -> Result<(), NoMemory>
    requires { IsKnown k.now }
    ensures { OnOk result (facts.new ≡ facts.old ++ flat_map (slot_gives (recs_in k.now) (knows k.now) (class_by rule (recs_in k.now) t)) bs.now) }
{
    for b in bs {
        add_slot(alloc, k, rule, t, *b, facts)?;
    }
    Ok(())
}

/// Adds the facts that a type gives with the class slots that one of its bases has.
fn add_own(
    alloc: Global,
    k: &Known<'_>,
    rule: Rule,
    t: RowAt,
    c: RowAt,
    facts: &mut Facts,
) -> Result<(), NoMemory>
    requires { IsKnown k.now }
    ensures { OnOk result (facts.new ≡ facts.old ++ flat_map (slot_gives (recs_in k.now) (knows k.now) (class_by rule (recs_in k.now) t)) (own_slots (recs_in k.now) c)) }
{
    let bs = own_slots(alloc, k.marker, k.slots, c)?;
    add_slots(alloc, k, rule, t, bs.as_slice(), facts)?;
    Ok(())
}

/// Adds the facts that a type gives with the class slots of these types.
pub(crate) fn add_with_slots(
    alloc: Global,
    k: &Known<'_>,
    rule: Rule,
    t: RowAt,
    types: &[RowAt],
    facts: &mut Facts,
) -> Result<(), NoMemory>
    requires { IsKnown k.now }
    ensures { OnOk result (facts.new ≡ facts.old ++ flat_map (λ c. flat_map (slot_gives (recs_in k.now) (knows k.now) (class_by rule (recs_in k.now) t)) (own_slots (recs_in k.now) c)) types.now) }
{
    for c in types {
        add_own(alloc, k, rule, t, *c, facts)?;
    }
    Ok(())
}
