//! The law of rows that go with kept rows.

ghost use Rattle.merged_tables.specs.merged_rows.Laws.{RowsTell};

/// The rows that go with kept rows, by the tables of an output, are those of the record that a merge leaves. It does nothing.
pub fn rows_tell()
    ensures { RowsTell }
{}
