ghost use Rattle.std.specs.Prelude.{◌≡◌, ℕ, ◌<◌, [], length, IsTrue, IfOk, ◌↔◌, not, false, replicate};
ghost use Rattle.std.specs.List.{All, Contains};
ghost use Rattle.closure.specs.Facts.{facts_in};
ghost use Rattle.closure.specs.Rounds.{with_fact};
ghost use Rattle.closure.specs.queued_closure.Waiting.{with_waiting, Puts, IsStart};

use il_base::{Bits, NoMemory, Seq};
use std::alloc::Global;

/// The facts that are known, and those of them that wait for what they bring alone.
#[derive(Drop)]
pub(crate) struct Found {
    pub(crate) set: Bits,
    pub(crate) waiting: Seq<u32>,
}

/// Puts a fact into the set, where it waits if it is new. Whether it is new.
#[tactic(auto, unfolding(crate::specs::Rounds::with_fact))]
fn put(found: &mut Found, fact: u32) -> Result<bool, NoMemory>
    requires { fact < length found.old.set.flags }
    ensures flags { IfOk result (λ new. found.new.set.flags ≡ with_fact found.old.set.flags fact) }
    ensures waiting { IfOk result (λ new. found.new.waiting ≡ with_waiting found.old.set.flags found.old.waiting fact) }
    ensures new { IfOk result (λ new. new ≡ not (facts_in found.old.set fact)) }
{
    if found.set.has(fact) {
        return Ok(false);
    }
    found.waiting.push(fact)?;
    found.set.flags.set(fact as usize, true);
    Ok(true)
}

/// Puts facts into the set. Whether any is new there.
pub(crate) fn put_all(found: &mut Found, facts: &[u32]) -> Result<bool, NoMemory>
    requires { All (λ fact. fact < length found.old.set.flags) facts.now }
    ensures { IfOk result (Puts facts.now (length facts.now) found.old found.new) }
{
    let mut new = false;
    for fact in facts {
        let is_new = put(found, *fact)?;
        if is_new {
            new = true;
        }
    }
    Ok(new)
}

/// The empty set, with a flag for each fact of the universe.
fn empty(alloc: Global, universe: u32) -> Result<Found, NoMemory>
    ensures flags { IfOk result (λ found. found.set.flags ≡ replicate universe false) }
    ensures waiting { IfOk result (λ found. found.waiting ≡ []) }
{
    let flags = vec![in alloc; false; universe as usize]?;
    let set = Bits {
        flags: Seq::from_vec(flags),
    };
    Ok(Found {
        set,
        waiting: Seq::new(alloc),
    })
}

/// The set of the roots, all of which wait, with a flag for each fact of the universe.
pub(crate) fn roots_alone(alloc: Global, universe: u32, roots: &Seq<u32>) -> Result<Found, NoMemory>
    requires { All (λ root. root < universe) roots.now }
    ensures { IfOk result (IsStart universe roots.now) }
{
    let mut found = empty(alloc, universe)?;
    put_all(&mut found, roots.as_slice())?;
    Ok(found)
}
