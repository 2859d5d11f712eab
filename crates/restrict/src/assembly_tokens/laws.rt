//! The law of the tokens of an assembly.

ghost use Rattle.restrict.specs.assembly_tokens.Laws.{AssemblyTokensTell};

use reference_rows::key_tokens::laws::keys_tell;

/// With what the output refers to, its kept rows and its tokens of types, the new tokens of an assembly are those that a merge leaves. It
/// does nothing.
pub fn assembly_tokens_tell()
    ensures { AssemblyTokensTell }
{
    keys_tell();
}
