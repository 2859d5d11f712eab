//! The law of FieldRVA rows.

ghost use Rattle.merged_tables.specs.merged_field_rvas.Laws.{FieldRvasTell};

/// The rows by the tables of an output are those of the record that a merge leaves. It does nothing.
pub fn field_rvas_tell()
    ensures { FieldRvasTell }
{}
