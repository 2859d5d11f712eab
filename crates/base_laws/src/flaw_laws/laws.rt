ghost use Rattle.base_laws.specs.flaw_laws.Listed.{FirstFound};
ghost use Rattle.base_laws.specs.flaw_laws.There.{RowsThere};
ghost use Rattle.base_laws.specs.world_laws.Inputs.{InRecords};

use crate::world_laws::laws::homes_told;

/// In a world that a link gave, where a test says of each item that is there whether it is marked, the least of all listed
/// flaws is the first bad item, if the rows of MethodImpl name items that are there. In the world of inputs that are records
/// (II.22) they do.
pub fn flaws_told()
    ensures first { FirstFound }
    ensures there { InRecords RowsThere }
{
    homes_told();
}
