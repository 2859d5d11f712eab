//! Signatures with new tokens (II.23.2).

ghost use Rattle.std.specs.Prelude.{◌≡◌, map, IfOk};
ghost use Rattle.il_base.specs.world_model.Worlds.{known_map};
ghost use Rattle.merge_plan.specs.moved_parts.Moves.{method_sig_by, sig_by};

use crate::moved_parts::tokens::NewTokens;
use il_base::world_model::Known;
use il_base::{Boxed, MethodSig, NoMemory, Seq, Sig};
use std::alloc::Global;

/// A signature with new tokens.
#[cycle(moving)]
#[tactic(auto, using(crate::proofs::lemmas::moved_parts::SigLayers::moving))]
pub fn moved_sig(alloc: Global, tokens: &NewTokens, sig: &Sig) -> Result<Sig, NoMemory>
    ensures { IfOk result (λ s. s ≡ sig_by tokens.now sig.now) }
{
    match sig {
        Sig::Prim(code) => Ok(Sig::Prim(*code)),
        Sig::Named { value, token } => Ok(Sig::Named {
            value: *value,
            token: tokens.classes.get(*token),
        }),
        Sig::Array(inner) => {
            let inner = moved_boxed(alloc, tokens, inner)?;
            Ok(Sig::Array(inner))
        }
        Sig::ByRef(inner) => {
            let inner = moved_boxed(alloc, tokens, inner)?;
            Ok(Sig::ByRef(inner))
        }
        Sig::Inst { value, token, args } => {
            let args = moved_sigs(alloc, tokens, args.as_slice())?;
            Ok(Sig::Inst {
                value: *value,
                token: tokens.classes.get(*token),
                args,
            })
        }
        Sig::Var(n) => Ok(Sig::Var(*n)),
        Sig::MVar(n) => Ok(Sig::MVar(*n)),
        Sig::Mod {
            required,
            token,
            inner,
        } => {
            let inner = moved_boxed(alloc, tokens, inner)?;
            Ok(Sig::Mod {
                required: *required,
                token: tokens.modifiers.get(*token),
                inner,
            })
        }
        Sig::Pinned(inner) => {
            let inner = moved_boxed(alloc, tokens, inner)?;
            Ok(Sig::Pinned(inner))
        }
    }
}

#[cycle(moving)]
fn moved_boxed(alloc: Global, tokens: &NewTokens, sig: &Boxed<Sig>) -> Result<Boxed<Sig>, NoMemory>
    ensures { IfOk result (λ s. s ≡ sig_by tokens.now sig.now) }
{
    let inner = moved_sig(alloc, tokens, sig.get())?;
    Boxed::new(alloc, inner)
}

/// Signatures with new tokens, in their order.
#[cycle(moving)]
pub fn moved_sigs(alloc: Global, tokens: &NewTokens, sigs: &[Sig]) -> Result<Seq<Sig>, NoMemory>
    ensures { IfOk result (λ ss. ss ≡ map (sig_by tokens.now) sigs.now) }
{
    let mut moved = Seq::new(alloc);
    for one in sigs {
        let sig = moved_sig(alloc, tokens, one)?;
        moved.push(sig)?;
    }
    Ok(moved)
}

fn moved_good(alloc: Global, tokens: &NewTokens, sig: &MethodSig) -> Result<MethodSig, NoMemory>
    ensures { IfOk result (λ s. s ≡ method_sig_by tokens.now sig.now) }
{
    let ret = moved_sig(alloc, tokens, &sig.ret)?;
    let params = moved_sigs(alloc, tokens, sig.params.as_slice())?;
    Ok(MethodSig {
        this: sig.this,
        generic: sig.generic,
        ret,
        params,
    })
}

/// A method's or a property's signature with new tokens; a bad one stays.
pub fn moved_method_sig(
    alloc: Global,
    tokens: &NewTokens,
    sig: &Known<MethodSig>,
) -> Result<Known<MethodSig>, NoMemory>
    ensures { IfOk result (λ s. s ≡ known_map (method_sig_by tokens.now) sig.now) }
{
    match sig {
        Known::Good(sig) => {
            let moved = moved_good(alloc, tokens, sig)?;
            Ok(Known::Good(moved))
        }
        Known::Bad(why) => Ok(Known::Bad(*why)),
    }
}

/// A field's signature with new tokens; a bad one stays.
pub(crate) fn moved_known_sig(
    alloc: Global,
    tokens: &NewTokens,
    sig: &Known<Sig>,
) -> Result<Known<Sig>, NoMemory>
    ensures { IfOk result (λ s. s ≡ known_map (sig_by tokens.now) sig.now) }
{
    match sig {
        Known::Good(sig) => {
            let moved = moved_sig(alloc, tokens, sig)?;
            Ok(Known::Good(moved))
        }
        Known::Bad(why) => Ok(Known::Bad(*why)),
    }
}
