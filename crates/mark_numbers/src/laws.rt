//! Laws on the numbers of facts: the contract of a function with an empty body.

ghost use Rattle.mark_numbers.specs.Numbers.{FactsFound, NumbersFound};

use base_laws::world_laws::laws::homes_told;

/// A law, for a world that a link gave: the facts that are there have distinct numbers below the bound, and a number leads only to
/// a fact that is there and has it.
pub fn numbers_told()
    ensures facts { FactsFound }
    ensures numbers { NumbersFound }
{
    homes_told();
}
