//! What follows from a source in a slot, and what holds without any, as numbers.

ghost use Rattle.std.specs.Prelude.{◌≡◌, ◌++◌, ◌&&◌, nat_lt, length, IfOk, OnOk};
ghost use Rattle.std.specs.List.{flat_map};
ghost use Rattle.rules.specs.flow_rules.Carrying.{held, is_handler, is_caught, passes};
ghost use Rattle.value_flow.specs.slot_flow.Facts.{number, fact_of, facts_along, sent_facts, born_along_facts, follows_by, begin_facts, taken_facts, born_facts, place_facts, root_facts};

use crate::slot_flow::moves::Flowing;
use crate::slot_flow::pairs::{Pair, made, through};
use il_base::{NoMemory, Seq};
use rules::flow_rules::{Step, Way};
use std::alloc::Global;

fn is_handler(way: Way) -> bool
    ensures { result ≡ is_handler way }
{
    match way {
        Way::Next => false,
        Way::Emptied => false,
        Way::Caught => true,
        Way::Unwound => true,
    }
}

fn is_caught(way: Way) -> bool
    ensures { result ≡ is_caught way }
{
    match way {
        Way::Next => false,
        Way::Emptied => false,
        Way::Caught => true,
        Way::Unwound => false,
    }
}

/// Whether what an instruction leaves in a slot goes along a step.
fn passes(fixed: usize, way: Way, pair: Pair) -> bool
    ensures { result ≡ passes fixed way pair }
{
    match way {
        Way::Next => true,
        Way::Emptied => (pair.0 as usize) < fixed,
        Way::Caught => (pair.0 as usize) < fixed,
        Way::Unwound => (pair.0 as usize) < fixed,
    }
}

/// The number of a source in a slot at an instruction.
#[tactic(auto, unfolding(crate::specs::slot_flow::Facts::number))]
fn number(f: &Flowing<'_>, at: u32, slot: u32, source: u32) -> Result<u32, NoMemory>
    ensures { IfOk result (λ n. n ≡ number f.now.slots f.now.count at slot source) }
{
    let Some(row) = at.checked_mul(f.slots) else {
        return Err(NoMemory);
    };
    let Some(place) = row.checked_add(slot) else {
        return Err(NoMemory);
    };
    let Some(first) = place.checked_mul(f.count) else {
        return Err(NoMemory);
    };
    match first.checked_add(source) {
        None => Err(NoMemory),
        Some(n) => Ok(n),
    }
}

fn put(
    f: &Flowing<'_>,
    facts: &mut Seq<u32>,
    at: u32,
    slot: u32,
    source: u32,
) -> Result<(), NoMemory>
    ensures { OnOk result (facts.new ≡ facts.old ++ fact_of f.now (held at slot source)) }
{
    if f.has_number(at, slot, source) {
        let n = number(f, at, slot, source)?;
        facts.push(n)?;
    }
    Ok(())
}

/// Puts what comes along a step of what an instruction leaves.
fn put_along(
    f: &Flowing<'_>,
    facts: &mut Seq<u32>,
    step: Step,
    pairs: &[Pair],
) -> Result<(), NoMemory>
    ensures { OnOk result (facts.new ≡ facts.old ++ facts_along f.now step pairs.now) }
{
    for pair in pairs {
        if passes(f.begins.len(), step.way, *pair) {
            put(f, facts, step.to, pair.0, pair.1)?;
        }
    }
    Ok(())
}

/// Puts what comes along a step from a source in a slot.
fn put_sent(
    f: &Flowing<'_>,
    facts: &mut Seq<u32>,
    step: Step,
    slot: u32,
    s: u32,
    pairs: &[Pair],
) -> Result<(), NoMemory>
    ensures { OnOk result (facts.new ≡ facts.old ++ sent_facts f.now slot s pairs.now step) }
{
    if is_handler(step.way) && (slot as usize) < f.begins.len() {
        put(f, facts, step.to, slot, s)?;
    }
    put_along(f, facts, step, pairs)
}

/// Puts what comes along a step without any source in a slot.
fn put_born(
    f: &Flowing<'_>,
    facts: &mut Seq<u32>,
    step: Step,
    fixed: u32,
    pairs: &[Pair],
) -> Result<(), NoMemory>
    requires { fixed ≡ length f.now.begins.now }
    ensures { OnOk result (facts.new ≡ facts.old ++ born_along_facts f.now pairs.now step) }
{
    if is_caught(step.way) {
        put(f, facts, step.to, fixed, f.unknown)?;
    }
    put_along(f, facts, step, pairs)
}

fn put_all_sent(
    f: &Flowing<'_>,
    facts: &mut Seq<u32>,
    steps: &[Step],
    slot: u32,
    s: u32,
    pairs: &[Pair],
) -> Result<(), NoMemory>
    ensures { OnOk result (facts.new ≡ facts.old ++ flat_map (sent_facts f.now slot s pairs.now) steps.now) }
{
    for step in steps {
        put_sent(f, facts, *step, slot, s, pairs)?;
    }
    Ok(())
}

fn put_all_born(
    f: &Flowing<'_>,
    facts: &mut Seq<u32>,
    steps: &[Step],
    fixed: u32,
    pairs: &[Pair],
) -> Result<(), NoMemory>
    requires { fixed ≡ length f.now.begins.now }
    ensures { OnOk result (facts.new ≡ facts.old ++ flat_map (born_along_facts f.now pairs.now) steps.now) }
{
    for step in steps {
        put_born(f, facts, *step, fixed, pairs)?;
    }
    Ok(())
}

/// What follows from a source in a slot at an instruction.
pub(crate) fn follow(
    alloc: Global,
    f: &Flowing<'_>,
    i: u32,
    slot: u32,
    s: u32,
) -> Result<Seq<u32>, NoMemory>
    ensures { IfOk result (λ facts. facts ≡ follows_by f.now i slot s) }
{
    let mut facts = Seq::new(alloc);
    let Some(d) = f.depth_at(i) else {
        return Ok(facts);
    };
    let Some(e) = f.exit_at(i) else {
        return Ok(facts);
    };
    let Some(m) = f.move_at(i) else {
        return Ok(facts);
    };
    let low = f.lowest(d, e)?;
    let pairs = through(alloc, f, low, m, slot, s)?;
    put_all_sent(f, &mut facts, e.steps.as_slice(), slot, s, pairs.as_slice())?;
    Ok(facts)
}

/// Puts what an instruction makes.
fn put_made(alloc: Global, f: &Flowing<'_>, facts: &mut Seq<u32>, i: u32) -> Result<(), NoMemory>
    ensures { OnOk result (facts.new ≡ facts.old ++ born_facts f.now i) }
{
    let Some(d) = f.depth_at(i) else {
        return Ok(());
    };
    let Some(e) = f.exit_at(i) else {
        return Ok(());
    };
    let Some(m) = f.move_at(i) else {
        return Ok(());
    };
    let Ok(fixed) = u32::try_from(f.begins.len()) else {
        return Err(NoMemory);
    };
    let low = f.lowest(d, e)?;
    let pairs = made(alloc, low, m)?;
    put_all_born(f, facts, e.steps.as_slice(), fixed, pairs.as_slice())
}

/// Puts that anything is in the slots whose address is taken.
fn put_taken(f: &Flowing<'_>, facts: &mut Seq<u32>, i: u32) -> Result<(), NoMemory>
    ensures { OnOk result (facts.new ≡ facts.old ++ taken_facts f.now i) }
{
    for slot in f.taken {
        put(f, facts, i, *slot, f.unknown)?;
    }
    Ok(())
}

/// Puts what arguments and locals have at the start.
fn put_begin(f: &Flowing<'_>, facts: &mut Seq<u32>) -> Result<(), NoMemory>
    ensures { OnOk result (facts.new ≡ facts.old ++ begin_facts f.now) }
{
    for (slot, s) in f.begins.iter().enumerate() {
        let Ok(place) = u32::try_from(slot) else {
            return Err(NoMemory);
        };
        put(f, facts, 0, place, *s)?;
    }
    Ok(())
}

/// Puts what holds at an instruction without a source in a slot before.
fn put_place(alloc: Global, f: &Flowing<'_>, facts: &mut Seq<u32>, i: usize) -> Result<(), NoMemory>
    ensures { OnOk result (facts.new ≡ facts.old ++ place_facts f.now i) }
{
    let Ok(place) = u32::try_from(i) else {
        return Err(NoMemory);
    };
    put_taken(f, facts, place)?;
    put_made(alloc, f, facts, place)
}

/// All that holds without a source in a slot before.
pub(crate) fn root_facts(alloc: Global, f: &Flowing<'_>) -> Result<Seq<u32>, NoMemory>
    ensures { IfOk result (λ facts. facts ≡ root_facts f.now) }
{
    let mut facts = Seq::new(alloc);
    put_begin(f, &mut facts)?;
    for (i, _depth) in f.depths.iter().enumerate() {
        put_place(alloc, f, &mut facts, i)?;
    }
    Ok(facts)
}
