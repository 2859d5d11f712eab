//! Signatures over the types of the world (II.23.2).

ghost use Rattle.std.specs.Prelude.{◌≡◌, IfOk};
ghost use Rattle.rules.specs.merge_rules.Keys.{world_sig, world_sigs};
ghost use Rattle.token_keys.specs.Keys.{IsKeys, recs_of, place_of, rec_of};

use crate::keys::Keys;
use crate::signature_rows::laws::signatures_tell;
use il_base::{NoMemory, Seq, Sig};
use merge_plan::moved_parts::{moved_sig, moved_sigs};
use std::alloc::Global;

/// A signature with the numbers of types in place of tokens.
pub fn world_sig(alloc: Global, keys: &Keys<'_>, sig: &Sig) -> Result<Sig, NoMemory>
    requires { IsKeys keys.now }
    ensures { IfOk result (λ s. s ≡ world_sig (recs_of keys.now) (place_of keys.now) (rec_of keys.now) sig.now) }
{
    signatures_tell();
    let moved = moved_sig(alloc, keys.numbers, sig)?;
    Ok(moved)
}

/// Signatures with the numbers of types in place of tokens, in their order.
pub fn world_sigs(alloc: Global, keys: &Keys<'_>, sigs: &[Sig]) -> Result<Seq<Sig>, NoMemory>
    requires { IsKeys keys.now }
    ensures { IfOk result (λ s. s ≡ world_sigs (recs_of keys.now) (place_of keys.now) (rec_of keys.now) sigs.now) }
{
    signatures_tell();
    let moved = moved_sigs(alloc, keys.numbers, sigs)?;
    Ok(moved)
}
