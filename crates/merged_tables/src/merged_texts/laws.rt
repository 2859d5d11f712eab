//! The law of texts.

ghost use Rattle.merged_tables.specs.merged_texts.Laws.{TextsTell};

/// The texts that the kept methods of an output load, with their tokens, and the new tokens of each assembly are those of the record
/// that a merge leaves. It does nothing.
pub fn texts_tell()
    ensures { TextsTell }
{}
