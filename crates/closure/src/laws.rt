ghost use Rattle.std.specs.Prelude.{ℕ, ◌↔◌};
ghost use Rattle.std.specs.List.{Contains};
ghost use Rattle.closure.specs.Facts.{Derived};

use crate::rules::Rules;
use il_base::Seq;

/// What follows depends on which facts are roots, and not on their order or how often one is listed.
pub fn order_is_free<R: Rules>(rules: &R, roots: &Seq<u32>, others: &Seq<u32>)
    requires { (fact : ℕ) → Contains roots.now fact ↔ Contains others.now fact }
    ensures { (fact : ℕ) → Derived (R.brings rules.now) (Contains roots.now) fact ↔ Derived (R.brings rules.now) (Contains others.now) fact }
{}
