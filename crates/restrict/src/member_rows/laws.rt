//! The law of rows of members.

ghost use Rattle.restrict.specs.member_rows.Laws.{MemberRowsTell};

use reference_rows::key_tokens::laws::keys_tell;
use token_keys::signature_rows::laws::signatures_tell;

/// With what the output refers to, its kept rows and its tokens of types, the rows are those of the record that a merge leaves. It does
/// nothing.
pub fn member_rows_tell()
    ensures { MemberRowsTell }
{
    keys_tell();
    signatures_tell();
}
