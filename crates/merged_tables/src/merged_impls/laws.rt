//! The law of MethodImpl rows.

ghost use Rattle.merged_tables.specs.merged_impls.Laws.{ImplsTell};

/// With the new tokens and the kept rows of an output, the rows are those of the record that a merge leaves. It does nothing.
pub fn impls_tell()
    ensures { ImplsTell }
{}
