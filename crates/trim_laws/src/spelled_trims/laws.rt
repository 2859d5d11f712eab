ghost use Rattle.trim_laws.specs.spelled_trims.Laws.{SignaturesAreOfTypes, TrimIsSpelled};

use crate::merged_scopes::laws::met_numbers_there;
use crate::spelled_parts::laws::{core_is_spelled, files_are_spelled, left_is_spelled};
use file_laws::record_laws::laws::file_has_record;
use merge_laws::merged_owners::laws::owners_stay;
use merge_laws::merged_standing::laws::types_stand;

/// A law: each token in a signature of what a trim leaves is of a type. It does nothing.
pub fn signatures_are_of_types()
    ensures { SignaturesAreOfTypes }
{
    file_has_record();
    owners_stay();
    types_stand();
    met_numbers_there();
}

/// A law: each signature and body of what a trim of files leaves that has a reading has a spelling. It does nothing.
pub fn trim_is_spelled()
    ensures { TrimIsSpelled }
{
    signatures_are_of_types();
    files_are_spelled();
    core_is_spelled();
    left_is_spelled();
}
