ghost use Rattle.std.specs.Prelude.{◌≡◌, ℕ, ◌<◌, length, IsTrue, IfOk, ◌↔◌};
ghost use Rattle.std.specs.List.{All, Contains};
ghost use Rattle.closure.specs.Facts.{facts_in, Derived, HoldsRoots, IsClosed, IsLeast, IsBelow};
ghost use Rattle.closure.specs.Rounds.{Taken};

use crate::facts::{put_all, roots_alone};
use crate::rules::Rules;
use il_base::{Bits, NoMemory, Seq};
use std::alloc::Global;

/// Puts what a fact of the set brings into it; another fact brings nothing. Whether something is new there.
fn take<R: Rules>(alloc: Global, rules: &R, set: &mut Bits, fact: u32) -> Result<bool, NoMemory>
    requires { length set.old.flags ≡ R.universe_of rules.now }
    ensures { IfOk result (λ new. Taken (R.brings rules.now) (λ known. known ≡ fact) set.old.flags set.new.flags new) }
{
    if !set.has(fact) {
        return Ok(false);
    }
    let consequences = rules.consequences(alloc, set, fact)?;
    let new = put_all(set, consequences.as_slice());
    Ok(new)
}

/// Takes each fact of the set once, and those too that come while it goes on. Whether something is new in the set.
fn round<R: Rules>(alloc: Global, rules: &R, set: &mut Bits) -> Result<bool, NoMemory>
    requires { length set.old.flags ≡ R.universe_of rules.now }
    ensures { IfOk result (λ new. Taken (R.brings rules.now) (λ known. known < R.universe_of rules.now) set.old.flags set.new.flags new) }
{
    let mut new = false;
    for fact in 0..rules.universe() {
        let brought = take(alloc, rules, set, fact)?;
        if brought {
            new = true;
        }
    }
    Ok(new)
}

/// The least set that holds the roots and is closed under the rules: a fact is in it exactly where it follows from the
/// roots, whatever the order in which facts are taken. Each root is below the universe.
pub fn least<R: Rules>(alloc: Global, rules: &R, roots: &Seq<u32>) -> Result<Bits, NoMemory>
    requires { All (λ root. root < R.universe_of rules.now) roots.now }
    ensures derived { IfOk result (λ set. (fact : ℕ) → IsTrue (facts_in set fact) ↔ Derived (R.brings rules.now) (Contains roots.now) fact) }
    ensures roots { IfOk result (λ set. HoldsRoots (Contains roots.now) (facts_in set)) }
    ensures closed { IfOk result (λ set. IsClosed (R.brings rules.now) (facts_in set)) }
    ensures least { IfOk result (λ set. IsLeast (R.brings rules.now) (Contains roots.now) (facts_in set)) }
    ensures below { IfOk result (λ set. IsBelow (R.universe_of rules.now) (facts_in set)) }
{
    let mut set = roots_alone(alloc, rules.universe(), roots)?;
    while round(alloc, rules, &mut set)? {}
    Ok(set)
}
