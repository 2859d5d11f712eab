ghost use Rattle.std.specs.Prelude.{◌≡◌, ℕ, ◌<◌, length, IsTrue, IfOk, ◌↔◌, not, false, replicate};
ghost use Rattle.std.specs.List.{All, Contains};
ghost use Rattle.closure.specs.Facts.{facts_in};
ghost use Rattle.closure.specs.Rounds.{with_fact, Puts};

use il_base::{Bits, NoMemory, Seq};
use std::alloc::Global;

/// Puts a fact into the set. Whether it is new there.
#[tactic(auto, unfolding(crate::specs::Rounds::with_fact))]
pub(crate) fn put(set: &mut Bits, fact: u32) -> bool
    requires { fact < length set.old.flags }
    ensures flags { set.new.flags ≡ with_fact set.old.flags fact }
    ensures new { result ≡ not (facts_in set.old fact) }
{
    if set.has(fact) {
        return false;
    }
    set.flags.set(fact as usize, true);
    true
}

/// Puts facts into the set. Whether any is new there.
pub(crate) fn put_all(set: &mut Bits, facts: &[u32]) -> bool
    requires { All (λ fact. fact < length set.old.flags) facts.now }
    ensures { Puts facts.now (length facts.now) set.old.flags set.new.flags result }
{
    let mut new = false;
    for fact in facts {
        if put(set, *fact) {
            new = true;
        }
    }
    new
}

/// The empty set, with a flag for each fact of the universe.
fn empty(alloc: Global, universe: u32) -> Result<Bits, NoMemory>
    ensures { IfOk result (λ set. set.flags ≡ replicate universe false) }
{
    let flags = vec![in alloc; false; universe as usize]?;
    Ok(Bits {
        flags: Seq::from_vec(flags),
    })
}

/// The set of the roots, with a flag for each fact of the universe.
pub(crate) fn roots_alone(alloc: Global, universe: u32, roots: &Seq<u32>) -> Result<Bits, NoMemory>
    requires { All (λ root. root < universe) roots.now }
    ensures one_each { IfOk result (λ set. length set.flags ≡ universe) }
    ensures roots { IfOk result (λ set. (fact : ℕ) → IsTrue (facts_in set fact) ↔ Contains roots.now fact) }
{
    let mut set = empty(alloc, universe)?;
    put_all(&mut set, roots.as_slice());
    Ok(set)
}
