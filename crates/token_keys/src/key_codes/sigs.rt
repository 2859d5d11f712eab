//! Codes of signatures (II.23.2).

ghost use Rattle.std.specs.Prelude.{◌≡◌, ◌∷◌, ◌++◌, [], OnOk};
ghost use Rattle.std.specs.List.{flat_map};
ghost use Rattle.token_keys.specs.key_codes.Codes.{sig_code, sigs_code, method_sig_code};

use crate::key_codes::numbers::{add_count, add_flagged, add_pair};
use il_base::{MethodSig, NoMemory, Sig};

/// Adds the code of a signature.
#[cycle(coding)]
#[tactic(auto, using(crate::proofs::lemmas::key_codes::SigCodes::coding))]
pub fn add_sig(code: &mut Vec<u32>, sig: &Sig) -> Result<(), NoMemory>
    ensures { OnOk result (code.new.items ≡ code.old.items ++ sig_code sig.now) }
{
    match sig {
        Sig::Prim(n) => {
            add_pair(code, 0, u32::from(*n))?;
            Ok(())
        }
        Sig::Named { value, token } => {
            add_flagged(code, 1, *value, *token)?;
            Ok(())
        }
        Sig::Array(inner) => {
            code.push(2)?;
            add_sig(code, inner.get())?;
            Ok(())
        }
        Sig::ByRef(inner) => {
            code.push(3)?;
            add_sig(code, inner.get())?;
            Ok(())
        }
        Sig::Inst { value, token, args } => {
            add_flagged(code, 4, *value, *token)?;
            add_count(code, args.len())?;
            add_each(code, args.as_slice())?;
            Ok(())
        }
        Sig::Var(n) => {
            add_pair(code, 5, *n)?;
            Ok(())
        }
        Sig::MVar(n) => {
            add_pair(code, 6, *n)?;
            Ok(())
        }
        Sig::Mod {
            required,
            token,
            inner,
        } => {
            add_flagged(code, 7, *required, *token)?;
            add_sig(code, inner.get())?;
            Ok(())
        }
        Sig::Pinned(inner) => {
            code.push(8)?;
            add_sig(code, inner.get())?;
            Ok(())
        }
    }
}

/// Adds the codes of signatures, one after the other.
#[cycle(coding)]
fn add_each(code: &mut Vec<u32>, sigs: &[Sig]) -> Result<(), NoMemory>
    ensures { OnOk result (code.new.items ≡ code.old.items ++ flat_map sig_code sigs.now) }
{
    for sig in sigs {
        add_sig(code, sig)?;
    }
    Ok(())
}

/// Adds the code of a list of signatures.
pub fn add_sigs(code: &mut Vec<u32>, sigs: &[Sig]) -> Result<(), NoMemory>
    ensures { OnOk result (code.new.items ≡ code.old.items ++ sigs_code sigs.now) }
{
    add_count(code, sigs.len())?;
    add_each(code, sigs)?;
    Ok(())
}

/// Adds the code of a method's signature.
pub fn add_method_sig(code: &mut Vec<u32>, sig: &MethodSig) -> Result<(), NoMemory>
    ensures { OnOk result (code.new.items ≡ code.old.items ++ method_sig_code sig.now) }
{
    add_flagged(code, 0, sig.this, sig.generic)?;
    add_sig(code, &sig.ret)?;
    add_sigs(code, sig.params.as_slice())?;
    Ok(())
}
