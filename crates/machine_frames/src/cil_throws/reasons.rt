//! What entered a handler.

ghost use Rattle.std.specs.Prelude.{◌≡◌, nat_eq, reverse, IfOk};
ghost use Rattle.std.specs.Option.{option_copied};
ghost use Rattle.rules.specs.step_rules.Throws.{reason_of};

use il_base::cil_values::{Reason, Running, Stack, Unwinding};
use il_base::{NoMemory, Seq};
use std::alloc::Global;

/// Whether a handler that runs is a clause's, by its place.
fn is_of(r: &Running, n: usize) -> bool
    ensures { result ≡ nat_eq r.now.clause n }
{
    r.clause as usize == n
}

/// What entered the handler of a clause, by its place, among handlers of which the innermost is last.
fn reason_in(n: usize, handlers: &[Running]) -> Option<&Reason>
    ensures { option_copied result ≡ reason_of n (reverse handlers.now) }
{
    for k in 0..handlers.len() {
        let at = handlers.len() - (k + 1);
        let r = &handlers[at];
        if is_of(r, n) {
            return Some(&r.reason);
        }
    }
    None
}

/// What entered the handler of a clause, by its place. None for a handler that the method began in.
pub(crate) fn reason_of(n: usize, running: &Stack<Running>) -> Option<&Reason>
    ensures { option_copied result ≡ reason_of n running.now }
{
    reason_in(n, running.as_slice())
}

fn copy_places(alloc: Global, places: &Stack<u32>) -> Result<Stack<u32>, NoMemory>
    ensures { IfOk result (λ copy. copy ≡ places.now) }
{
    let items = Vec::from_slice(alloc, places.as_slice())?;
    Ok(Stack::from_vec(items))
}

/// A copy.
pub(crate) fn copy_reason(alloc: Global, reason: &Reason) -> Result<Reason, NoMemory>
    ensures { IfOk result (λ copy. copy ≡ reason.now) }
{
    match reason {
        Reason::Caught(a) => Ok(Reason::Caught(*a)),
        Reason::Leaving(left, to) => {
            let left = copy_places(alloc, left)?;
            Ok(Reason::Leaving(left, *to))
        }
        Reason::Unwinding(u) => {
            let copy = copy_unwinding(alloc, u)?;
            Ok(Reason::Unwinding(copy))
        }
    }
}

fn copy_unwinding(alloc: Global, u: &Unwinding) -> Result<Unwinding, NoMemory>
    ensures { IfOk result (λ copy. copy ≡ u.now) }
{
    let later = Seq::from_slice(alloc, u.later.as_slice())?;
    let left = copy_places(alloc, &u.left)?;
    Ok(Unwinding {
        object: u.object,
        later,
        frame: u.frame,
        clause: u.clause,
        left,
    })
}
