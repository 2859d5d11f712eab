ghost use Rattle.std.specs.Prelude.{◌≡◌, ℕ, ◌<◌, Bool, IfOk, ◌↔◌};
ghost use Rattle.std.specs.List.{Contains};
ghost use Rattle.closure.specs.Facts.{facts_in, IsBelow, IsWithin};

use il_base::{Bits, NoMemory, Seq};
use std::alloc::Global;

/// Rules over facts that are numbers, from 0 up to below the universe. What a fact brings alone is asked once; what it brings
/// with others is asked again whenever more is known.
pub trait Rules {
    // what the rules rest on
    ghost ready: { Self → Type 0 };

    // how many facts there are
    ghost universe_of: { Self → ℕ };

    // what a fact brings alone
    ghost alone: { Self → ℕ → ℕ → Type 0 };

    // what a fact brings where the facts of a set are known
    ghost joined: { Self → (ℕ → Bool) → ℕ → ℕ → Type 0 };

    /// How many facts there are.
    fn universe(&self) -> u32
        requires { ready self.now }
        ensures { result ≡ universe_of self.now };

    /// What `fact` brings alone, in any order; a fact may stand in the list more than once.
    fn brought_alone(&self, alloc: Global, fact: u32) -> Result<Seq<u32>, NoMemory>
        requires rules { ready self.now }
        requires fact_below { fact < universe_of self.now }
        ensures { IfOk result (λ cs. (c : ℕ) → Contains cs c ↔ alone self.now fact c) };

    /// What `fact` brings together with the facts of `have`, in any order; a fact may stand in the list more than once.
    fn brought_with(&self, alloc: Global, have: &Bits, fact: u32) -> Result<Seq<u32>, NoMemory>
        requires rules { ready self.now }
        requires fact_below { fact < universe_of self.now }
        requires have_below { IsBelow (universe_of self.now) (facts_in have.now) }
        ensures { IfOk result (λ cs. (c : ℕ) → Contains cs c ↔ joined self.now (facts_in have.now) fact c) };

    // every consequence is below the universe
    ghost alone_below: { (rules : Self) (fact c : ℕ) → ready rules → fact < universe_of rules → alone rules fact c → c < universe_of rules };

    ghost joined_below: { (rules : Self) (have : ℕ → Bool) (fact c : ℕ) → ready rules → fact < universe_of rules → joined rules have fact c → c < universe_of rules };

    // more facts give no fewer consequences
    ghost is_monotone: { (rules : Self) (few many : ℕ → Bool) (fact c : ℕ) → ready rules → fact < universe_of rules → IsWithin few many → joined rules few fact c → joined rules many fact c };
}
