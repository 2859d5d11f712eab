ghost use Rattle.std.specs.Prelude.{◌≡◌, ℕ, ◌<◌, Bool, IsTrue, IfOk, ◌↔◌};
ghost use Rattle.std.specs.List.{Contains};
ghost use Rattle.closure.specs.Facts.{facts_in, IsBelow, IsWithin};

use il_base::{Bits, NoMemory, Seq};
use std::alloc::Global;

/// Rules over facts that are numbers, from 0 up to below the universe.
pub trait Rules {
    // how many facts there are
    ghost universe_of: { Self → ℕ };

    // what a fact brings where the facts of a set are known (`specs/Facts`)
    ghost brings: { Self → (ℕ → Bool) → ℕ → ℕ → Type 0 };

    /// How many facts there are.
    fn universe(&self) -> u32
        ensures { result ≡ universe_of self.now };

    /// What `fact` brings together with the facts of `have`, in any order; a fact may stand in the list more than once.
    fn consequences(&self, alloc: Global, have: &Bits, fact: u32) -> Result<Seq<u32>, NoMemory>
        requires fact_below { fact < universe_of self.now }
        requires have_below { IsBelow (universe_of self.now) (facts_in have.now) }
        ensures { IfOk result (λ cs. (c : ℕ) → Contains cs c ↔ brings self.now (facts_in have.now) fact c) };

    // every consequence is below the universe
    ghost stays_below: { (rules : Self) (have : ℕ → Bool) (fact c : ℕ) → fact < universe_of rules → brings rules have fact c → c < universe_of rules };

    // more facts give no fewer consequences
    ghost is_monotone: { (rules : Self) (few many : ℕ → Bool) (fact c : ℕ) → fact < universe_of rules → IsWithin few many → brings rules few fact c → brings rules many fact c };
}
