//! The new tokens of an assembly.

ghost use Rattle.std.specs.Prelude.{◌≡◌, slice_get};
ghost use Rattle.std.specs.Option.{option_copied};

use merge_plan::moved_parts::NewTokens;

/// The new tokens of the assembly in a place, from 0.
pub(crate) fn tokens_at(tokens: &[NewTokens], asm: u32) -> Option<&NewTokens>
    ensures { option_copied result ≡ slice_get tokens.now asm }
{
    tokens.get(asm as usize)
}
