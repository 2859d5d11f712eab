//! The law of TypeDef rows.

ghost use Rattle.merged_tables.specs.merged_types.Laws.{TypesTell};

/// With the new tokens and names and the kept rows of an output, the rows are those of the record that a merge leaves. It does nothing.
pub fn types_tell()
    ensures { TypesTell }
{}
