ghost use Rattle.std.specs.Prelude.{◌≡◌, ◌+◌, ◌*◌, ◌≤◌, ◌<◌, ◌^◌, [], length, IfOk, IfNone};
ghost use Rattle.il_base.specs.body_grammar.Bodies as grammar;
ghost use Rattle.il_code.specs.Gives.{Gives, same};

use crate::error::BodyError;
use crate::header::{byte, half, word};
use crate::rules::offender;
use il_base::body_grammar::{BODY, FILTER, Fault};
use il_base::{Handler, Instr, NoMemory, Seq};
use std::alloc::Global;

/// The number of clauses of a small section at `at`.
#[tactic(auto, unfolding(il_base::specs::body_grammar::Bodies::small_section_at))]
fn small_section(at: usize, bytes: &[u8]) -> Result<u32, Fault>
    requires bytes { length bytes.now < 2 ^ 32 }
    requires at { at < 2 ^ 34 }
    ensures exact { result ≡ grammar.small_section_at at bytes.now }
    ensures within { IfOk result (λ _. at + 4 ≤ length bytes.now) }
{
    let size = byte(bytes, at + 1)?;
    if size % 12 != 4 {
        return Err(Fault {
            at: (at + 1) as u32,
            what: BODY,
        });
    }
    half(bytes, at + 2)?;
    Ok(u32::from(size / 12))
}

/// The number of clauses of a fat section at `at`.
#[tactic(auto, unfolding(il_base::specs::body_grammar::Bodies::fat_section_at))]
fn fat_section(at: usize, bytes: &[u8]) -> Result<u32, Fault>
    requires bytes { length bytes.now < 2 ^ 32 }
    requires at { at < 2 ^ 34 }
    ensures exact { result ≡ grammar.fat_section_at at bytes.now }
    ensures within { IfOk result (λ _. at + 4 ≤ length bytes.now) }
{
    let low = byte(bytes, at + 1)?;
    if low % 8 != 4 {
        return Err(Fault {
            at: (at + 1) as u32,
            what: BODY,
        });
    }
    let front = half(bytes, at + 1)?;
    let high = byte(bytes, at + 3)?;
    let size = u32::from(front) + 65536 * u32::from(high);
    if size % 24 != 4 {
        return Err(Fault {
            at: (at + 3) as u32,
            what: BODY,
        });
    }
    Ok(size / 24)
}

/// Whether the section at `at` is fat, and how many clauses it has.
#[tactic(auto, unfolding(il_base::specs::body_grammar::Bodies::section_at))]
fn section(at: usize, bytes: &[u8]) -> Result<(bool, u32), Fault>
    requires bytes { length bytes.now < 2 ^ 32 }
    requires at { at < 2 ^ 34 }
    ensures exact { result ≡ grammar.section_at at bytes.now }
    ensures within { IfOk result (λ _. at + 4 ≤ length bytes.now) }
{
    let kind = byte(bytes, at)?;
    match kind {
        0x01 => {
            let count = small_section(at, bytes)?;
            Ok((false, count))
        }
        0x41 => {
            let count = fat_section(at, bytes)?;
            Ok((true, count))
        }
        _ => Err(Fault {
            at: at as u32,
            what: BODY,
        }),
    }
}

/// The byte at `at`, which is 0.
#[tactic(auto, unfolding(il_base::specs::body_grammar::Bodies::zero_at))]
fn zero(bytes: &[u8], at: usize) -> Result<u8, Fault>
    requires { length bytes.now < 2 ^ 32 }
    ensures { result ≡ grammar.zero_at at bytes.now }
{
    let b = byte(bytes, at)?;
    if b == 0 {
        Ok(0)
    } else {
        Err(Fault {
            at: at as u32,
            what: BODY,
        })
    }
}

/// The kind of the clause at `at`.
#[tactic(auto, unfolding(il_base::specs::body_grammar::Bodies::clause_kind_at))]
fn clause_kind(bytes: &[u8], at: usize) -> Result<u8, Fault>
    requires { length bytes.now < 2 ^ 32 }
    ensures { result ≡ grammar.clause_kind_at at bytes.now }
{
    let kind = byte(bytes, at)?;
    match kind {
        1 => Err(Fault {
            at: at as u32,
            what: FILTER,
        }),
        0 | 2 | 4 => Ok(kind),
        _ => Err(Fault {
            at: at as u32,
            what: BODY,
        }),
    }
}

/// A clause of 12 bytes.
#[tactic(auto, unfolding(il_base::specs::body_grammar::Bodies::small_clause_at))]
fn small_clause(bytes: &[u8], at: usize) -> Result<Handler, Fault>
    requires bytes { length bytes.now < 2 ^ 32 }
    requires at { at < 2 ^ 34 }
    ensures exact { result ≡ grammar.small_clause_at at bytes.now }
    ensures within { IfOk result (λ _. at + 12 ≤ length bytes.now) }
{
    let kind = clause_kind(bytes, at)?;
    zero(bytes, at + 1)?;
    let try_at = u32::from(half(bytes, at + 2)?);
    let try_len = u32::from(byte(bytes, at + 4)?);
    let start = u32::from(half(bytes, at + 5)?);
    let len = u32::from(byte(bytes, at + 7)?);
    let token = word(bytes, at + 8)?;
    Ok(Handler {
        kind,
        try_at,
        try_len,
        at: start,
        len,
        token,
    })
}

/// A clause of 24 bytes.
#[tactic(auto, unfolding(il_base::specs::body_grammar::Bodies::fat_clause_at))]
fn fat_clause(bytes: &[u8], at: usize) -> Result<Handler, Fault>
    requires bytes { length bytes.now < 2 ^ 32 }
    requires at { at < 2 ^ 34 }
    ensures exact { result ≡ grammar.fat_clause_at at bytes.now }
    ensures within { IfOk result (λ _. at + 24 ≤ length bytes.now) }
{
    let kind = clause_kind(bytes, at)?;
    zero(bytes, at + 1)?;
    zero(bytes, at + 2)?;
    zero(bytes, at + 3)?;
    let try_at = word(bytes, at + 4)?;
    let try_len = word(bytes, at + 8)?;
    let start = word(bytes, at + 12)?;
    let len = word(bytes, at + 16)?;
    let token = word(bytes, at + 20)?;
    Ok(Handler {
        kind,
        try_at,
        try_len,
        at: start,
        len,
        token,
    })
}

/// The clause at `at`.
fn clause(fat: bool, bytes: &[u8], at: usize) -> Result<Handler, Fault>
    requires bytes { length bytes.now < 2 ^ 32 }
    requires at { at < 2 ^ 34 }
    ensures exact { result ≡ grammar.clause_at fat at bytes.now }
    ensures within { IfOk result (λ _. at + grammar.clause_size fat ≤ length bytes.now) }
{
    if fat {
        fat_clause(bytes, at)
    } else {
        small_clause(bytes, at)
    }
}

/// The size of a clause in bytes.
fn clause_size(fat: bool) -> usize
    ensures { result ≡ grammar.clause_size fat }
{
    if fat { 24 } else { 12 }
}

/// Where clause `i` begins, the first of which begins at `at`.
fn clause_place(at: usize, i: usize, fat: bool) -> usize
    requires at { at < 2 ^ 34 }
    requires i { i < 2 ^ 33 }
    ensures { result ≡ at + i * grammar.clause_size fat }
{
    if fat { at + i * 24 } else { at + i * 12 }
}

/// So many clauses from `at` on, up to the first fault.
fn clauses(
    alloc: Global,
    count: u32,
    fat: bool,
    at: usize,
    bytes: &[u8],
) -> Result<(Seq<Handler>, Option<Fault>), NoMemory>
    requires bytes { length bytes.now < 2 ^ 32 }
    requires at { at ≤ length bytes.now }
    ensures exact { IfOk result (λ r. grammar.clauses_after count fat at bytes.now [] ≡ r) }
    ensures within { IfOk result (λ r. at + length r.0 * grammar.clause_size fat ≤ length bytes.now) }
    ensures whole { IfOk result (λ r. IfNone r.1 (length r.0 ≡ count)) }
{
    let mut handlers = Seq::new(alloc);
    let mut place = at;
    for _ in 0..count {
        match clause(fat, bytes, place) {
            Ok(handler) => handlers.push(handler)?,
            Err(fault) => return Ok((handlers, Some(fault))),
        }
        place += clause_size(fat);
    }
    Ok((handlers, None))
}

/// The handler section at `at`: whether it is fat, its clauses, and where it ends. `size` is the size of the code.
#[tactic(auto, unfolding(il_base::specs::body_grammar::Bodies::handlers_at))]
pub fn handlers(
    alloc: Global,
    code: &[Instr],
    size: u32,
    at: usize,
    bytes: &[u8],
) -> Result<(bool, Seq<Handler>, u32), BodyError>
    requires bytes { length bytes.now < 2 ^ 32 }
    requires at { at < 2 ^ 33 }
    ensures { Gives same result (grammar.handlers_at code.now size at bytes.now) }
{
    let (fat, count) = section(at, bytes)?;
    let (handlers, fault) = clauses(alloc, count, fat, at + 4, bytes)?;
    let first = offender(alloc, code, size, handlers.as_slice())?;
    if let Some(i) = first {
        return Err(BodyError::Bad {
            at: clause_place(at + 4, i, fat) as u32,
            what: BODY,
        });
    }
    if let Some(fault) = fault {
        return Err(BodyError::from(fault));
    }
    let end = clause_place(at + 4, count as usize, fat);
    Ok((fat, handlers, end as u32))
}
