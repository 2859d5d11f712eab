ghost use Rattle.mark_numbers.specs.mark_laws.Brings.{StaysBelow, IsMonotone, MarksFound};

use crate::laws::numbers_told;

/// A law, for a world that a link gave. The numbers that facts bring are below the bound, and more known facts bring no fewer. The
/// rules of marking derive a fact that is there exactly where its number follows from those of the facts at the start.
pub fn marks_told()
    ensures below { StaysBelow }
    ensures monotone { IsMonotone }
    ensures marks { MarksFound }
{
    numbers_told();
}
