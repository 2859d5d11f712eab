//! The law of TypeRef rows.

ghost use Rattle.reference_rows.specs.Laws.{TypesTell};

/// With the types that the output refers to, its assemblies and its kept types, the tokens of types and the TypeRef rows are those of
/// the record that a merge leaves. It does nothing.
pub fn types_tell()
    ensures { TypesTell }
{}
