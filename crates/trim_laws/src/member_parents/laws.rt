ghost use Rattle.trim_laws.specs.member_parents.Laws.{AllNamed, ParentsNamed};

use merge_laws::merged_references::laws::met_written;
use merge_laws::merged_standing::laws::reference_rows_stand;
use merge_laws::merged_tokens::laws::names_follow;

/// A law: each MemberRef row of what a merge leaves names the type in which its member is found. It does nothing.
pub fn parents_named()
    ensures { ParentsNamed }
{
    met_written();
    reference_rows_stand();
}

/// A law: so each column of what a marked merge leaves names a row that has to name one. It does nothing.
pub fn all_named()
    ensures { AllNamed }
{
    parents_named();
    names_follow();
}
