ghost use Rattle.std.specs.Prelude.{◌≡◌, ℕ, ◌<◌, length, IsTrue, IfOk, OnOk, ◌↔◌};
ghost use Rattle.std.specs.List.{All, Contains};
ghost use Rattle.closure.specs.Facts.{facts_in, Derived, IsBelow};
ghost use Rattle.closure.specs.queued_closure.Brings.{brings_by};
ghost use Rattle.closure.specs.queued_closure.Waiting.{IsKnown, Rounds, Drained, Steps};

use crate::queued_closure::found::{Found, put_all, roots_alone};
use crate::queued_closure::rules::Rules;
use il_base::{Bits, NoMemory, Seq};
use std::alloc::Global;

/// Puts what a fact brings alone into the set, and so on, until no fact waits.
fn drain<R: Rules>(
    alloc: Global,
    rules: &R,
    found: &mut Found,
    roots: &Seq<u32>,
) -> Result<(), NoMemory>
    requires rules { R.ready rules.now }
    requires known { IsKnown (R.alone rules.now) (R.joined rules.now) (R.universe_of rules.now) roots.now found.old }
    ensures { OnOk result (Drained (R.alone rules.now) (R.joined rules.now) (R.universe_of rules.now) roots.now found.old found.new) }
{
    while let Some(fact) = found.waiting.pop() {
        let brought = rules.brought_alone(alloc, fact)?;
        put_all(found, brought.as_slice())?;
    }
    Ok(())
}

/// Puts what a fact of the set brings with others into it; another fact brings nothing. Whether something is new there.
fn take<R: Rules>(alloc: Global, rules: &R, found: &mut Found, fact: u32) -> Result<bool, NoMemory>
    requires rules { R.ready rules.now }
    requires one_each { length found.old.set.flags ≡ R.universe_of rules.now }
    ensures { IfOk result (Rounds (R.joined rules.now) (λ known. known ≡ fact) found.old found.new) }
{
    if !found.set.has(fact) {
        return Ok(false);
    }
    let brought = rules.brought_with(alloc, &found.set, fact)?;
    let new = put_all(found, brought.as_slice())?;
    Ok(new)
}

/// Takes each fact of the set once. Whether something is new in the set.
fn round<R: Rules>(alloc: Global, rules: &R, found: &mut Found) -> Result<bool, NoMemory>
    requires rules { R.ready rules.now }
    requires one_each { length found.old.set.flags ≡ R.universe_of rules.now }
    ensures { IfOk result (Rounds (R.joined rules.now) (λ known. known < R.universe_of rules.now) found.old found.new) }
{
    let mut new = false;
    for fact in 0..rules.universe() {
        let brought = take(alloc, rules, found, fact)?;
        if brought {
            new = true;
        }
    }
    Ok(new)
}

/// What facts bring alone until no fact waits, and then what each brings with others. Whether that is something new.
fn step<R: Rules>(
    alloc: Global,
    rules: &R,
    found: &mut Found,
    roots: &Seq<u32>,
) -> Result<bool, NoMemory>
    requires rules { R.ready rules.now }
    requires known { IsKnown (R.alone rules.now) (R.joined rules.now) (R.universe_of rules.now) roots.now found.old }
    ensures { IfOk result (Steps (R.alone rules.now) (R.joined rules.now) (R.universe_of rules.now) roots.now found.old found.new) }
{
    drain(alloc, rules, found, roots)?;
    let new = round(alloc, rules, found)?;
    Ok(new)
}

/// The least set that holds the roots and is closed under the rules: a fact is in it exactly where it follows from the
/// roots, whatever the order in which facts are taken. Each root is below the universe.
pub fn least<R: Rules>(alloc: Global, rules: &R, roots: &Seq<u32>) -> Result<Bits, NoMemory>
    requires rules { R.ready rules.now }
    requires roots { All (λ root. root < R.universe_of rules.now) roots.now }
    ensures derived { IfOk result (λ set. (fact : ℕ) → IsTrue (facts_in set fact) ↔ Derived (brings_by (R.alone rules.now) (R.joined rules.now)) (Contains roots.now) fact) }
    ensures below { IfOk result (λ set. IsBelow (R.universe_of rules.now) (facts_in set)) }
{
    let mut found = roots_alone(alloc, rules.universe(), roots)?;
    while step(alloc, rules, &mut found, roots)? {}
    let Found { set, waiting: _ } = found;
    Ok(set)
}
