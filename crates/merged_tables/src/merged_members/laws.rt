//! The law of member rows.

ghost use Rattle.merged_tables.specs.merged_members.Laws.{MembersTell};

/// The rows that are made of kept rows with the tokens of the output are those of the record that a merge leaves. It does
/// nothing.
pub fn members_tell()
    ensures { MembersTell }
{}
