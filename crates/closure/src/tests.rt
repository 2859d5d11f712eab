ghost use Rattle.std.specs.Prelude.{◌≡◌, [], ◌∷◌, IfOk};
ghost use Rattle.closure.specs.Example.{given};

use super::*;
use il_base::{Bits, NoMemory, Seq};
use std::alloc::Global;
use std::test::Fail;

/// The rules of `specs/Example`.
#[derive(Drop)]
struct Example;

fn one(alloc: Global, fact: u32) -> Result<Seq<u32>, NoMemory>
    ensures { IfOk result (λ facts. facts ≡ fact ∷ []) }
{
    let mut facts = Seq::new(alloc);
    facts.push(fact)?;
    Ok(facts)
}

impl Rules for Example {
    ghost use Rattle.closure.specs.Example.{brings_by, stays_below, is_monotone};

    ghost universe_of = { λ _. 6 };

    ghost brings = { λ _. brings_by };

    ghost stays_below = { λ _. stays_below };

    ghost is_monotone = { λ _. is_monotone };

    fn universe(&self) -> u32 {
        6
    }

    fn consequences(&self, alloc: Global, have: &Bits, fact: u32) -> Result<Seq<u32>, NoMemory> {
        given(alloc, have.has(3), fact)
    }
}

fn given(alloc: Global, three: bool, fact: u32) -> Result<Seq<u32>, NoMemory>
    ensures { IfOk result (λ facts. facts ≡ given three fact) }
{
    if fact == 0 {
        return one(alloc, 1);
    }
    if fact == 1 && three {
        return one(alloc, 4);
    }
    if fact == 4 {
        return one(alloc, 2);
    }
    if fact == 2 {
        return one(alloc, 5);
    }
    Ok(Seq::new(alloc))
}

fn has_exactly(set: &Bits, facts: &[u32]) -> bool {
    (0..6u32).all(|fact| set.has(fact) == facts.contains(&fact))
}

#[test]
fn from_one_root(rt: HostRuntime) -> Result<(), Fail> {
    let roots = Seq::from_slice(rt.alloc(), &[0])?;
    let set = least(rt.alloc(), &Example, &roots)?;
    assert!(rt; has_exactly(&set, &[0, 1]));
    Ok(())
}

/// Each round brings one fact more, from two premises at first.
#[test]
fn from_two_roots(rt: HostRuntime) -> Result<(), Fail> {
    let roots = Seq::from_slice(rt.alloc(), &[3, 0])?;
    let set = least(rt.alloc(), &Example, &roots)?;
    assert!(rt; has_exactly(&set, &[0, 1, 2, 3, 4, 5]));
    Ok(())
}

#[test]
fn from_no_root(rt: HostRuntime) -> Result<(), Fail> {
    let set = least(rt.alloc(), &Example, &Seq::new(rt.alloc()))?;
    assert!(rt; has_exactly(&set, &[]));
    Ok(())
}
