//! The law of these rows.

ghost use Rattle.merged_tables.specs.merged_sorted.Laws.{SortedTell};

/// The rows that are made of kept rows with the tokens of the output are those of the record that a merge leaves. It does
/// nothing.
pub fn sorted_tell()
    ensures { SortedTell }
{}
