//! The set of all that is carried: the least that holds what is made and is closed under what follows.

ghost use Rattle.std.specs.Prelude.{◌≡◌, ◌*◌, ◌<◌, true, false, nat_lt, length, IfOk};
ghost use Rattle.closure.specs.Facts.{facts_in};
ghost use Rattle.value_flow.specs.slot_flow.Facts.{number, place_in, slot_in, source_in, universe, IsWithin};

use crate::slot_flow::facts::{follow, root_facts};
use crate::slot_flow::moves::Flowing;
use closure::queued_closure::{Rules, least};
use il_base::{Bits, NoMemory, Seq};
use std::alloc::Global;

/// What follows from a source in a slot, as rules over numbers.
#[derive(Drop)]
struct Walks<'a> {
    flow: Flowing<'a>,
    /// How many numbers there are.
    size: u32,
    ghost whole: { size ≡ universe flow },
}

/// An instruction, a slot and a source by their number.
#[tactic(auto, unfolding(crate::specs::slot_flow::Facts::place_in, crate::specs::slot_flow::Facts::slot_in, crate::specs::slot_flow::Facts::source_in))]
fn spot_of(f: &Flowing<'_>, fact: u32) -> (u32, u32, u32)
    requires count { 0 < f.now.count }
    requires slots { 0 < f.now.slots }
    ensures at { result.0 ≡ place_in f.now fact }
    ensures slot { result.1 ≡ slot_in f.now fact }
    ensures source { result.2 ≡ source_in f.now fact }
{
    let row = fact / f.count;
    (row / f.slots, row % f.slots, fact % f.count)
}

/// How many instructions there are.
fn places_of(f: &Flowing<'_>) -> Result<u32, NoMemory>
    ensures { IfOk result (λ places. places ≡ length f.now.depths.now) }
{
    match u32::try_from(f.depths.len()) {
        Err(_) => Err(NoMemory),
        Ok(places) => Ok(places),
    }
}

/// How many numbers there are.
fn size_of(f: &Flowing<'_>) -> Result<u32, NoMemory>
    ensures { IfOk result (λ size. size ≡ universe f.now) }
{
    let places = places_of(f)?;
    let Some(row) = f.slots.checked_mul(places) else {
        return Err(NoMemory);
    };
    match f.count.checked_mul(row) {
        None => Err(NoMemory),
        Some(size) => Ok(size),
    }
}

impl Rules for Walks<'_> {
    ghost use Rattle.std.specs.Prelude.{[]};
    ghost use Rattle.std.specs.List.{Contains};
    ghost use Rattle.value_flow.specs.slot_flow.Facts.{follows};
    ghost use Rattle.value_flow.specs.slot_flow.Laws.{stays_below, nothing_below};

    ghost ready = { λ w. Unit {0} };

    ghost universe_of = { λ w. w.size };

    ghost alone = { λ w fact c. Contains (follows w.flow fact) c };

    ghost joined = { λ w have fact c. Contains [] c };

    ghost alone_below = { λ w fact c ready below brought. stays_below w.flow w.size w.whole fact c brought };

    ghost joined_below = { λ w have fact c ready below brought. nothing_below w.size c brought };

    ghost is_monotone = { λ w few many fact c ready below within brought. brought };

    fn universe(&self) -> u32 {
        self.size
    }

    fn brought_alone(&self, alloc: Global, fact: u32) -> Result<Seq<u32>, NoMemory> {
        let (at, slot, source) = spot_of(&self.flow, fact);
        let facts = follow(alloc, &self.flow, at, slot, source)?;
        Ok(facts)
    }

    fn brought_with(&self, alloc: Global, _have: &Bits, _fact: u32) -> Result<Seq<u32>, NoMemory> {
        Ok(Seq::new(alloc))
    }
}

/// All that is carried: which sources are in which slots at each instruction.
#[derive(Drop)]
pub struct Reached {
    bits: Bits,
    /// How many instructions there are.
    places: u32,
    slots: u32,
    count: u32,
    ghost fits: { count * (slots * places) < 4294967296 },
}

/// A number that is below the universe.
#[tactic(auto, unfolding(crate::specs::slot_flow::Facts::number))]
fn number_in(places: u32, slots: u32, count: u32, at: u32, slot: u32, source: u32) -> u32
    requires fits { count * (slots * places) < 4294967296 }
    requires at { at < places }
    requires slot { slot < slots }
    requires source { source < count }
    ensures { result ≡ number slots count at slot source }
{
    let row = at * slots;
    let place = row + slot;
    let first = place * count;
    first + source
}

impl Walks<'_> {
    ghost use Rattle.value_flow.specs.slot_flow.Facts.{IsLeastOf};

    /// What is carried, by its numbers.
    fn carried(&self, alloc: Global) -> Result<Bits, NoMemory>
        ensures { IfOk result (IsLeastOf self.now.flow) }
    {
        let roots = root_facts(alloc, &self.flow)?;
        let bits = least(alloc, self, &roots)?;
        Ok(bits)
    }
}

impl Reached {
    ghost use Rattle.value_flow.specs.slot_flow.Found.{is_found, IsReached};

    /// All that is carried in a body, as `specs/slot_flow/Carrying` has it.
    pub fn of(alloc: Global, flow: &Flowing<'_>) -> Result<Reached, NoMemory>
        requires { IsWithin flow.now }
        ensures { IfOk result (IsReached flow.now) }
    {
        let size = size_of(flow)?;
        let walks = Walks { flow: *flow, size };
        let bits = walks.carried(alloc)?;
        let places = places_of(flow)?;
        Ok(Reached {
            bits,
            places,
            slots: flow.slots,
            count: flow.count,
        })
    }

    /// Whether a source is carried to a slot at an instruction.
    pub fn has(&self, at: usize, slot: u32, source: u32) -> bool
        ensures { result ≡ is_found self.now at slot source }
    {
        if at < self.places as usize && slot < self.slots && source < self.count {
            let place = at as u32;
            let n = number_in(self.places, self.slots, self.count, place, slot, source);
            self.bits.has(n)
        } else {
            false
        }
    }
}
