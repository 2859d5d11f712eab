//! The law of signatures.

ghost use Rattle.token_keys.specs.signature_rows.Laws.{SignaturesTell, RowsTell};

/// Signatures with the numbers of types in place of an assembly's tokens are those over the types of the world; these with the
/// output's tokens in place of numbers are those of the record that a merge leaves, and so are the rows. It does nothing.
pub fn signatures_tell()
    ensures signatures { SignaturesTell }
    ensures rows { RowsTell }
{}
