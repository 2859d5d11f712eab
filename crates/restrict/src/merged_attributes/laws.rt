//! The law of attributes.

ghost use Rattle.restrict.specs.merged_attributes.Laws.{AttributesTell, RowsTell};

use reference_rows::key_tokens::laws::keys_tell;

/// With the kept rows of an output, the attributes and what they refer to are its own; with its tokens, so are the rows. It does nothing.
pub fn attributes_tell()
    ensures attributes { AttributesTell }
    ensures rows { RowsTell }
{
    keys_tell();
}
