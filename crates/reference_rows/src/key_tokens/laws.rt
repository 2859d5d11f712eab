//! The law of tokens by keys.

ghost use Rattle.reference_rows.specs.key_tokens.Laws.{KeysTell};

use crate::laws::types_tell;

/// With what the output refers to and its kept rows, the tokens by keys are those of the record that a merge leaves. It does nothing.
pub fn keys_tell()
    ensures { KeysTell }
{
    types_tell();
}
