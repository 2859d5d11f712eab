ghost use Rattle.std.specs.Prelude.{◌≡◌, ◌+◌, ◌<◌, ◌≤◌, length, IfOk};
ghost use Rattle.il_code.specs.Around.{stands_in, misfit};
ghost use Rattle.il_code.specs.Blocks.{may_share, clash, AreOrdered, AreBounded, IsRun};
ghost use Rattle.il_code.specs.Nesting.{IsFirstWithin, IsFirstAlike, IsFirstMisfit};

use crate::around::{Around, Begun};
use crate::blocks::{Block, all_turned, blocks_of, sorted};
use crate::rules::is_same;
use il_base::{Handler, NoMemory};
use std::alloc::Global;

/// Whether a block lies in what is around its first byte. So does the handler of a try block, and its clause stands
/// before those of the try blocks around.
fn stands_in(b: Block, around: Around) -> bool
    ensures { result ≡ stands_in b around }
{
    b.range.to <= around.to
        && (!b.is_try
            || around.from <= b.handler.from
                && b.handler.to <= around.to
                && (b.clause as u64) < around.clause)
}

/// The clause of a block that doesn't stand right in what is around its first byte; else `usize::MAX`.
fn misfit(b: Block, around: Around) -> usize
    ensures { result ≡ misfit b around }
{
    if stands_in(b, around) {
        usize::MAX
    } else {
        b.clause
    }
}

/// Whether two blocks may have one range: they are try blocks of catch clauses, or of one clause.
fn may_share(a: Block, b: Block) -> bool
    ensures { result ≡ may_share a b }
{
    a.clause == b.clause || a.shares && b.shares
}

/// The lesser clause of two blocks that may not have one range; else `usize::MAX`.
fn clash(a: Block, b: Block) -> usize
    ensures { result ≡ clash a b }
{
    if may_share(a, b) {
        usize::MAX
    } else {
        a.clause.min(b.clause)
    }
}

/// The first of the blocks that stand in order up to number `at` and have the range of that one, where `run` is the
/// first with the range of the one before.
fn run_of(blocks: &[Block], run: usize, at: usize) -> usize
    requires ordered { AreOrdered blocks.now }
    requires at { at < length blocks.now }
    requires run { IsRun blocks.now run at }
    ensures order { run ≤ result }
    ensures within { result ≤ at }
    ensures run { IsRun blocks.now result (at + 1) }
{
    if is_same(blocks[run].range, blocks[at].range) {
        run
    } else {
        at
    }
}

/// The first clause with a block that has the range of another clause's block and may not share it; else `usize::MAX`.
fn first_alike(blocks: &[Block]) -> usize
    requires { AreOrdered blocks.now }
    ensures { IsFirstAlike blocks.now (length blocks.now) result }
{
    let mut first = usize::MAX;
    let mut run = 0;
    for at in 0..blocks.len() {
        run = run_of(blocks, run, at);
        first = first.min(clash(blocks[run], blocks[at]));
    }
    first
}

/// The first clause with a block that doesn't stand right among those before it in the order; else `usize::MAX`.
fn first_within(alloc: Global, blocks: &[Block]) -> Result<usize, NoMemory>
    requires ordered { AreOrdered blocks.now }
    requires bounded { AreBounded blocks.now }
    ensures { IfOk result (λ first. IsFirstWithin blocks.now (length blocks.now) first) }
{
    let mut begun = Begun::new(alloc);
    let mut first = usize::MAX;
    let mut run = 0;
    for at in 0..blocks.len() {
        let next = run_of(blocks, run, at);
        begun.add_all(blocks, run, next)?;
        run = next;
        let b = blocks[at];
        let around = begun.around(b.range.from);
        first = first.min(misfit(b, around));
    }
    Ok(first)
}

/// The first clause that doesn't keep the rules on pairs beside each other one, counted from 0, where each clause's own
/// blocks are disjoint; else `usize::MAX`.
pub fn first_misfit(alloc: Global, all: &[Handler]) -> Result<usize, NoMemory>
    ensures { IfOk result (λ first. IsFirstMisfit all.now first) }
{
    let blocks = sorted(blocks_of(alloc, all)?);
    let alike = first_alike(&blocks);
    let front = first_within(alloc, &blocks)?;
    let turned = sorted(all_turned(alloc, &blocks)?);
    let back = first_within(alloc, &turned)?;
    Ok(alike.min(front).min(back))
}
