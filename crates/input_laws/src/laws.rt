ghost use Rattle.std.specs.Prelude.{◌≡◌, ℕ, List, None};
ghost use Rattle.inputs.specs.Files.{input_fault, records};
ghost use Rattle.rules.specs.link_rules.Linked.{world_of};
ghost use Rattle.base_laws.specs.world_laws.Inputs.{AreRecords};
ghost use Rattle.base_laws.specs.flaw_laws.There.{RowsThere};

use base_laws::flaw_laws::laws::flaws_told;
use file_laws::record_laws::laws::file_has_record;

/// Where files meet all demands and link, the record of each keeps the rules of II.22, and in their world the class and the
/// body of each row of MethodImpl are there.
pub fn files_told()
    ensures records { (files : List (List ℕ)) → input_fault files ≡ None → AreRecords (records files) }
    ensures rows { (files : List (List ℕ)) → input_fault files ≡ None → RowsThere (world_of (records files)).recs }
{
    file_has_record();
    flaws_told();
}
