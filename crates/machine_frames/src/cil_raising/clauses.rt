//! Exception handling clauses (II.25.4.6): the ranges of IL offsets that they protect and handle, and what runs on the way out.

ghost use Rattle.std.specs.Prelude.{◌≡◌, IfOk};
ghost use Rattle.rules.specs.step_rules.Words.{in_try, in_handler};
ghost use Rattle.rules.specs.step_rules.Raising.{is_catch, is_finally, is_fault, is_unwound, places_of};

use il_base::NoMemory;
use il_base::cil_values::{Clause, ClauseKind, Stack};
use std::alloc::Global;

/// Whether an IL offset lies in the try block.
pub fn is_in_try(c: &Clause, at: u32) -> bool
    ensures { result ≡ in_try c.now at }
{
    c.try_at <= at && at < c.try_end
}

/// Whether an IL offset lies in the handler.
pub fn is_in_handler(c: &Clause, at: u32) -> bool
    ensures { result ≡ in_handler c.now at }
{
    c.at <= at && at < c.end
}

/// Whether the clause catches exceptions of a type.
pub fn is_catch(c: &Clause) -> bool
    ensures { result ≡ is_catch c.now }
{
    match c.kind {
        ClauseKind::Catch => true,
        ClauseKind::Finally => false,
        ClauseKind::Fault => false,
    }
}

/// Whether the handler runs on each way out of the try block.
pub fn is_finally(c: &Clause) -> bool
    ensures { result ≡ is_finally c.now }
{
    match c.kind {
        ClauseKind::Catch => false,
        ClauseKind::Finally => true,
        ClauseKind::Fault => false,
    }
}

/// Whether the handler runs where an exception leaves the try block.
fn is_fault(c: &Clause) -> bool
    ensures { result ≡ is_fault c.now }
{
    match c.kind {
        ClauseKind::Catch => false,
        ClauseKind::Finally => false,
        ClauseKind::Fault => true,
    }
}

/// Whether an exception that is raised at an IL offset runs the clause's handler on its way out.
fn is_unwound(c: &Clause, at: u32) -> bool
    ensures { result ≡ is_unwound at c.now }
{
    is_in_try(c, at) && (is_finally(c) || is_fault(c))
}

/// The places of the finally and fault clauses around an IL offset, the inner ones first. A section of 4294967296 clauses is
/// answered as want of memory.
pub(crate) fn unwound(alloc: Global, clauses: &[Clause], at: u32) -> Result<Stack<u32>, NoMemory>
    ensures { IfOk result (λ places. places ≡ places_of (is_unwound at) 0 clauses.now) }
{
    if clauses.len() > u32::MAX as usize {
        return Err(NoMemory);
    }
    let mut places = Stack::new(alloc);
    for n in (0..clauses.len()).rev() {
        if is_unwound(&clauses[n], at) {
            places.push(n as u32)?;
        }
    }
    Ok(places)
}
