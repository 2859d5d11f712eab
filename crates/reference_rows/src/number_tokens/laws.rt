//! The law of tokens by numbers.

ghost use Rattle.reference_rows.specs.number_tokens.Laws.{NumbersTell};

use crate::laws::types_tell;

/// With the types that the output refers to and its kept types, the tokens by numbers are those of the record that a merge leaves. It
/// does nothing.
pub fn numbers_tell()
    ensures { NumbersTell }
{
    types_tell();
}
