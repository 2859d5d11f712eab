//! The innermost handler that an IL offset lies in.

ghost use Rattle.std.specs.Prelude.{◌≡◌, ℕ, Some, None, if◌then◌else◌};
ghost use Rattle.std.specs.Option.{option_map};
ghost use Rattle.rules.specs.step_rules.Throws.{better, innermost, innermost_from, is_shorter, length_of};
ghost use Rattle.machine_frames.specs.cil_throws.Blocks.{best_by, placed_by};

use crate::cil_raising::is_in_handler;
use il_base::cil_values::{Clause, Code};

/// A clause with its place among the clauses.
#[derive(Clone, Copy)]
pub struct Best<'a> {
    place: usize,
    clause: &'a Clause,
}

/// How many bytes the handler has.
fn length_of(c: &Clause) -> u32
    ensures { result ≡ length_of c.now }
{
    c.end.saturating_sub(c.at)
}

fn is_shorter(c: &Clause, best: &Option<Best>) -> bool
    ensures { result ≡ is_shorter c.now (best_by best.now) }
{
    match best {
        None => true,
        Some(best) => length_of(c) < length_of(best.clause),
    }
}

/// Whether a clause takes the place of the innermost one so far.
fn is_better(c: &Clause, at: u32, best: &Option<Best>) -> bool
    ensures { (n : ℕ) → better at n c.now (best_by best.now) ≡ (if result then Some (record { place = n; clause = c.now }) else best_by best.now) }
{
    is_in_handler(c, at) && is_shorter(c, best)
}

/// The innermost handler that an IL offset lies in. Handlers lie in each other or apart, so it is the shortest (I.12.4.2.7).
fn best_of(clauses: &[Clause], at: u32) -> Option<Best>
    ensures { best_by result ≡ innermost_from at None 0 clauses.now }
{
    let mut best = None;
    for (n, c) in clauses.iter().enumerate() {
        if is_better(c, at, &best) {
            best = Some(Best {
                place: n,
                clause: c,
            });
        }
    }
    best
}

/// The clause of the innermost handler that an IL offset lies in, by its place.
pub(crate) fn innermost(code: &Code, at: u32) -> Option<usize>
    ensures { result ≡ option_map (λ p. p.place) (innermost code.now at) }
{
    match best_of(code.clauses.as_slice(), at) {
        None => None,
        Some(best) => Some(best.place),
    }
}
