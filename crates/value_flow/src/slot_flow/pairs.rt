//! What one instruction does with sources, as slots beside sources.

ghost use Rattle.std.specs.Prelude.{◌≡◌, ◌++◌, suc, IfOk, OnOk};
ghost use Rattle.rules.specs.flow_rules.Carrying.{only_if, through, made};
ghost use Rattle.value_flow.specs.slot_flow.Facts.{turned};

use crate::slot_flow::moves::Flowing;
use il_base::{NoMemory, Seq};
use rules::flow_rules::Move;
use std::alloc::Global;

/// A slot and a source.
pub(crate) type Pair = (u32, u32);

fn push_if(pairs: &mut Seq<Pair>, test: bool, slot: u32, source: u32) -> Result<(), NoMemory>
    ensures { OnOk result (pairs.new ≡ pairs.old ++ only_if test (slot, source)) }
{
    if test {
        pairs.push((slot, source))?;
    }
    Ok(())
}

fn one_if(alloc: Global, test: bool, slot: u32, source: u32) -> Result<Seq<Pair>, NoMemory>
    ensures { IfOk result (λ pairs. pairs ≡ only_if test (slot, source)) }
{
    let mut pairs = Seq::new(alloc);
    push_if(&mut pairs, test, slot, source)?;
    Ok(pairs)
}

/// What a slot keeps, and what is put into another one.
fn kept_and_put(
    alloc: Global,
    keeps: bool,
    slot: u32,
    source: u32,
    puts: bool,
    to: u32,
    other: u32,
) -> Result<Seq<Pair>, NoMemory>
    ensures { IfOk result (λ pairs. pairs ≡ only_if keeps (slot, source) ++ only_if puts (to, other)) }
{
    let mut pairs = one_if(alloc, keeps, slot, source)?;
    push_if(&mut pairs, puts, to, other)?;
    Ok(pairs)
}

fn twice(alloc: Global, low: u32, slot: u32, s: u32) -> Result<Seq<Pair>, NoMemory>
    ensures { IfOk result (λ pairs. pairs ≡ through {A = Rattle.std.specs.Prelude.ℕ} (λ t x. x) low Move.Twice slot s) }
{
    let Some(next) = low.checked_add(1) else {
        return Err(NoMemory);
    };
    let mut pairs = kept_and_put(alloc, slot < low, slot, s, slot == low, low, s)?;
    push_if(&mut pairs, slot == low, next, s)?;
    Ok(pairs)
}

/// Where a source goes that is in a slot before an instruction, whose result is put into the slot `low`.
pub(crate) fn through(
    alloc: Global,
    f: &Flowing<'_>,
    low: u32,
    m: Move<u32>,
    slot: u32,
    s: u32,
) -> Result<Seq<Pair>, NoMemory>
    ensures { IfOk result (λ pairs. pairs ≡ through (turned f.now) low m slot s) }
{
    let keeps = slot < low;
    let first = slot == low;
    match m {
        Move::Load(n) => kept_and_put(alloc, keeps, slot, s, slot == n, low, s),
        Move::Store(n) => kept_and_put(alloc, keeps && !(slot == n), slot, s, first, n, s),
        Move::Twice => twice(alloc, low, slot, s),
        Move::Back => kept_and_put(alloc, keeps, slot, s, first, low, s),
        Move::Make(_) => one_if(alloc, keeps, slot, s),
        Move::Turn(t) => kept_and_put(alloc, keeps, slot, s, first, low, f.turn(t, s)),
        Move::Nothing => one_if(alloc, keeps, slot, s),
    }
}

/// What an instruction makes, whose result is put into the slot `low`.
pub(crate) fn made(alloc: Global, low: u32, m: Move<u32>) -> Result<Seq<Pair>, NoMemory>
    ensures { IfOk result (λ pairs. pairs ≡ made low m) }
{
    match m {
        Move::Load(_) => Ok(Seq::new(alloc)),
        Move::Store(_) => Ok(Seq::new(alloc)),
        Move::Twice => Ok(Seq::new(alloc)),
        Move::Back => Ok(Seq::new(alloc)),
        Move::Make(source) => one_if(alloc, true, low, source),
        Move::Turn(_) => Ok(Seq::new(alloc)),
        Move::Nothing => Ok(Seq::new(alloc)),
    }
}
