ghost use Rattle.std.specs.Prelude.{◌≡◌, ◌<◌, map, IfOk};
ghost use Rattle.std.specs.List.Sorted.{IsPermutation};
ghost use Rattle.il_code.specs.Blocks.{try_block, handler_block, blocks_from, most, turned_range, turned, IsBounded, AreBounded, AreOrdered};

use crate::rules::{handler_of, try_of};
use il_base::body_grammar::Range;
use il_base::{Handler, NoMemory};
use std::alloc::Global;
use std::cmp::Reverse;

/// The try block or the handler of a clause (II.19).
#[derive(Clone, Copy)]
pub struct Block {
    /// Its range of code.
    pub range: Range,
    /// The range of the clause's handler.
    pub handler: Range,
    /// The clause, counted from 0.
    pub clause: usize,
    pub is_try: bool,
    /// Whether another block may have the same range: it is the try block of a catch clause.
    pub shares: bool,
}

fn try_block(i: usize, h: Handler) -> Block
    requires { i < most }
    ensures is { result ≡ try_block i h }
    ensures bounded { IsBounded result }
{
    Block {
        range: try_of(h),
        handler: handler_of(h),
        clause: i,
        is_try: true,
        shares: h.kind == 0,
    }
}

fn handler_block(i: usize, h: Handler) -> Block
    requires { i < most }
    ensures is { result ≡ handler_block i h }
    ensures bounded { IsBounded result }
{
    Block {
        range: handler_of(h),
        handler: handler_of(h),
        clause: i,
        is_try: false,
        shares: false,
    }
}

/// The blocks of the clauses of a body.
pub fn blocks_of(alloc: Global, all: &[Handler]) -> Result<Vec<Block>, NoMemory>
    ensures items { IfOk result (λ v. v.items ≡ blocks_from 0 all.now) }
    ensures bounded { IfOk result (λ v. AreBounded v.items) }
{
    let mut blocks = Vec::new(alloc);
    for (i, h) in all.iter().enumerate() {
        blocks.push(try_block(i, *h))?;
        blocks.push(handler_block(i, *h))?;
    }
    Ok(blocks)
}

/// A range of code that is read from its end to its front.
fn turned_range(r: Range) -> Range
    ensures { result ≡ turned_range r }
{
    Range {
        from: u64::MAX - r.to,
        to: u64::MAX - r.from,
    }
}

fn turned(b: Block) -> Block
    ensures { result ≡ turned b }
{
    Block {
        range: turned_range(b.range),
        handler: turned_range(b.handler),
        ..b
    }
}

/// The blocks of code that is read from its end to its front.
pub fn all_turned(alloc: Global, blocks: &[Block]) -> Result<Vec<Block>, NoMemory>
    ensures { IfOk result (λ v. v.items ≡ map turned blocks.now) }
{
    let turned = blocks.iter().map(|b| turned(*b)).collect(alloc)?;
    Ok(turned)
}

/// Blocks in order: by their first bytes, and of those with the same first byte the longer one first. Of those with one
/// range, the ones that may not share it come first.
pub fn sorted(mut blocks: Vec<Block>) -> Vec<Block>
    ensures moved { IsPermutation blocks.items result.items }
    ensures ordered { AreOrdered result.items }
{
    blocks.sort_unstable_by_key(|b| (b.range.from, Reverse(b.range.to), b.shares));
    blocks
}
