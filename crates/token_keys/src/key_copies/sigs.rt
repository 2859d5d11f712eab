//! Copies of signatures.

ghost use Rattle.std.specs.Prelude.{◌≡◌, IfOk};

use il_base::{Boxed, MethodSig, NoMemory, Seq, Sig};
use std::alloc::Global;

/// A copy of a signature.
#[cycle(copying)]
pub fn copy_sig(alloc: Global, sig: &Sig) -> Result<Sig, NoMemory>
    ensures { IfOk result (λ copy. copy ≡ sig.now) }
{
    match sig {
        Sig::Prim(code) => Ok(Sig::Prim(*code)),
        Sig::Named { value, token } => Ok(Sig::Named {
            value: *value,
            token: *token,
        }),
        Sig::Array(inner) => {
            let inner = copy_boxed(alloc, inner)?;
            Ok(Sig::Array(inner))
        }
        Sig::ByRef(inner) => {
            let inner = copy_boxed(alloc, inner)?;
            Ok(Sig::ByRef(inner))
        }
        Sig::Inst { value, token, args } => {
            let args = copy_sigs(alloc, args.as_slice())?;
            Ok(Sig::Inst {
                value: *value,
                token: *token,
                args,
            })
        }
        Sig::Var(n) => Ok(Sig::Var(*n)),
        Sig::MVar(n) => Ok(Sig::MVar(*n)),
        Sig::Mod {
            required,
            token,
            inner,
        } => {
            let inner = copy_boxed(alloc, inner)?;
            Ok(Sig::Mod {
                required: *required,
                token: *token,
                inner,
            })
        }
        Sig::Pinned(inner) => {
            let inner = copy_boxed(alloc, inner)?;
            Ok(Sig::Pinned(inner))
        }
    }
}

#[cycle(copying)]
fn copy_boxed(alloc: Global, sig: &Boxed<Sig>) -> Result<Boxed<Sig>, NoMemory>
    ensures { IfOk result (λ copy. copy ≡ sig.now) }
{
    let inner = copy_sig(alloc, sig.get())?;
    Boxed::new(alloc, inner)
}

/// Copies of signatures, in their order.
#[cycle(copying)]
pub fn copy_sigs(alloc: Global, sigs: &[Sig]) -> Result<Seq<Sig>, NoMemory>
    ensures { IfOk result (λ copies. copies ≡ sigs.now) }
{
    let mut copies = Seq::new(alloc);
    for one in sigs {
        let copy = copy_sig(alloc, one)?;
        copies.push(copy)?;
    }
    Ok(copies)
}

/// A copy of a method's signature.
pub fn copy_method_sig(alloc: Global, sig: &MethodSig) -> Result<MethodSig, NoMemory>
    ensures { IfOk result (λ copy. copy ≡ sig.now) }
{
    let ret = copy_sig(alloc, &sig.ret)?;
    let params = copy_sigs(alloc, sig.params.as_slice())?;
    Ok(MethodSig {
        this: sig.this,
        generic: sig.generic,
        ret,
        params,
    })
}
