ghost use Rattle.std.specs.Prelude.{◌≡◌, ℕ, ◌<◌, ◌^◌, length, get_or, true, false, IfOk, IfSome};
ghost use Rattle.il_base.specs.body_grammar.HandlerRules as nesting;
ghost use Rattle.il_code.specs.Nesting.{IsFirstMisfit};

use crate::nesting::first_misfit;
use il_base::body_grammar::Range;
use il_base::{Handler, Instr, NoMemory, Seq};
use std::alloc::Global;

/// The range of a clause's try block.
pub fn try_of(h: Handler) -> Range
    ensures { result ≡ nesting.try_of h }
{
    Range {
        from: u64::from(h.try_at),
        to: u64::from(h.try_at) + u64::from(h.try_len),
    }
}

/// The range of its handler.
pub fn handler_of(h: Handler) -> Range
    ensures { result ≡ nesting.handler_of h }
{
    Range {
        from: u64::from(h.at),
        to: u64::from(h.at) + u64::from(h.len),
    }
}

fn are_disjoint(r: Range, s: Range) -> bool
    ensures { result ≡ nesting.are_disjoint r s }
{
    r.to <= s.from || s.to <= r.from
}

pub fn lies_in(r: Range, s: Range) -> bool
    ensures { result ≡ nesting.lies_in r s }
{
    s.from <= r.from && r.to <= s.to
}

pub fn is_same(r: Range, s: Range) -> bool
    ensures { result ≡ nesting.is_same r s }
{
    r.from == s.from && r.to == s.to
}

/// Whether an instruction begins at an offset, by a flag for each offset.
fn is_start(starts: &[bool], at: u64) -> bool
    ensures { result ≡ get_or starts.now at false }
{
    match starts.get(at as usize) {
        Some(flag) => *flag,
        None => false,
    }
}

/// Whether a range begins at an instruction, and ends at one or at the end of the code.
#[tactic(auto, unfolding(il_base::specs::body_grammar::HandlerRules::is_range))]
fn is_range(starts: &[bool], size: u32, r: Range) -> bool
    ensures { result ≡ nesting.is_range (λ k. get_or starts.now k false) size r }
{
    is_start(starts, r.from) && (is_start(starts, r.to) || r.to == u64::from(size))
}

/// Whether a clause keeps what it has to keep by itself.
#[tactic(auto, unfolding(il_base::specs::body_grammar::HandlerRules::is_clause))]
fn is_clause(starts: &[bool], size: u32, h: Handler) -> bool
    ensures { result ≡ nesting.is_clause (λ k. get_or starts.now k false) size h }
{
    let (tried, caught) = (try_of(h), handler_of(h));
    is_range(starts, size, tried)
        && is_range(starts, size, caught)
        && are_disjoint(tried, caught)
        && !is_same(tried, caught)
}

/// The first clause that doesn't keep the rules, counted from 0, where `misfit` is the first that breaks those on pairs.
fn first_offender(starts: &[bool], size: u32, all: &[Handler], misfit: usize) -> Option<usize>
    requires { IsFirstMisfit all.now misfit }
    ensures within { IfSome result (λ i. i < length all.now) }
    ensures exact { result ≡ nesting.offender (λ k. get_or starts.now k false) size all.now }
{
    for (i, h) in all.iter().enumerate() {
        if i == misfit || !is_clause(starts, size, *h) {
            return Some(i);
        }
    }
    None
}

/// A flag for each offset of the code: whether an instruction begins there.
fn starts(alloc: Global, code: &[Instr], size: u32) -> Result<Vec<bool>, NoMemory>
    ensures { IfOk result (λ v. (k : ℕ) → get_or v.items k false ≡ nesting.is_start code.now size k) }
{
    let mut starts = vec![in alloc; false; size as usize]?;
    for instr in code {
        let at = instr.at as usize;
        if at < starts.len() {
            starts[at] = true;
        }
    }
    Ok(starts)
}

/// The first clause of a body that doesn't keep the rules of nesting (II.19), counted from 0.
pub fn offender(
    alloc: Global,
    code: &[Instr],
    size: u32,
    all: &[Handler],
) -> Result<Option<usize>, NoMemory>
    ensures within { IfOk result (λ o. IfSome o (λ i. i < length all.now)) }
    ensures exact { IfOk result (λ o. o ≡ nesting.offender (nesting.is_start code.now size) size all.now) }
{
    if all.is_empty() {
        return Ok(None);
    }
    let starts = starts(alloc, code, size)?;
    let misfit = first_misfit(alloc, all)?;
    Ok(first_offender(&starts, size, all, misfit))
}
