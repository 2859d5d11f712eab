//! Signatures as parts of rows (II.23.2): a value, or why there is none.

ghost use Rattle.std.specs.Prelude.{◌≡◌, ◌<◌, ◌^◌, ℕ, Result, IfOk, length};
ghost use Rattle.rules.specs.record_format.Parts as parts;
ghost use Rattle.sig_blobs.specs.Answers.{Answers};
ghost use Rattle.il_base.specs.declared.world_model.expr.MemberSig.TheVariants as member;

use il_base::world_model::{BadKind, Known, MemberSig};
use il_base::{MethodSig, NoMemory, Sig};
use sig_blobs::{SigError, read_field, read_method};
use std::alloc::Global;

/// The signature of a blob: a value, or why there is none.
pub fn known<T: Drop>(read: Result<T, SigError>) -> Result<Known<T>, NoMemory>
    ensures { (given : Result T (ℕ × ℕ)) → Answers read given → IfOk result (λ k. k ≡ parts.known_of given) }
{
    match read {
        Ok(value) => Ok(Known::Good(value)),
        Err(SigError::Bad { at: _, what }) => Ok(Known::Bad(BadKind::Outside(what))),
        Err(SigError::NoMemory) => Err(NoMemory),
    }
}

fn of_field(signature: Known<Sig>) -> Known<MemberSig>
    ensures { result ≡ parts.known_map member.Field signature }
{
    match signature {
        Known::Good(s) => Known::Good(MemberSig::Field(s)),
        Known::Bad(why) => Known::Bad(why),
    }
}

fn of_method(signature: Known<MethodSig>) -> Known<MemberSig>
    ensures { result ≡ parts.known_map member.Method signature }
{
    match signature {
        Known::Good(s) => Known::Good(MemberSig::Method(s)),
        Known::Bad(why) => Known::Bad(why),
    }
}

/// Whether a member reference's signature is a field's (II.23.2.4).
fn begins_field(blob: &[u8]) -> bool
    ensures { result ≡ parts.begins_field blob.now }
{
    match blob {
        [] => false,
        [first, ..] => *first == 6,
    }
}

/// The signature of a member reference (II.22.25).
#[tactic(auto, unfolding(rules::specs::record_format::Parts::member_of_blob))]
pub fn member_signature(alloc: Global, blob: &[u8]) -> Result<Known<MemberSig>, NoMemory>
    requires { length blob.now < 2 ^ 32 }
    ensures { IfOk result (λ k. k ≡ parts.member_of_blob blob.now) }
{
    if begins_field(blob) {
        let signature = known(read_field(alloc, blob))?;
        return Ok(of_field(signature));
    }
    let signature = known(read_method(alloc, blob))?;
    Ok(of_method(signature))
}
