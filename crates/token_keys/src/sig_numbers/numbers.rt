//! The numbers in signatures, which may also be the tokens of an assembly.

ghost use Rattle.std.specs.Prelude.{◌≡◌, ◌∷◌, ◌++◌, OnOk};
ghost use Rattle.std.specs.List.{flat_map};
ghost use Rattle.rules.specs.merge_rules.Refs.{numbers_in};

use il_base::{MethodSig, NoMemory, Sig};

/// Puts the numbers in a signature at the end.
#[cycle(numbering)]
#[tactic(auto, using(crate::proofs::lemmas::sig_numbers::NumberLayers::numbering))]
pub fn add_numbers(numbers: &mut Vec<u32>, sig: &Sig) -> Result<(), NoMemory>
    ensures { OnOk result (numbers.new.items ≡ numbers.old.items ++ numbers_in sig.now) }
{
    match sig {
        Sig::Prim(_) => Ok(()),
        Sig::Named { token, .. } => {
            numbers.push(*token)?;
            Ok(())
        }
        Sig::Array(inner) => {
            add_numbers(numbers, inner.get())?;
            Ok(())
        }
        Sig::ByRef(inner) => {
            add_numbers(numbers, inner.get())?;
            Ok(())
        }
        Sig::Inst { token, args, .. } => {
            numbers.push(*token)?;
            add_each(numbers, args.as_slice())?;
            Ok(())
        }
        Sig::Var(_) => Ok(()),
        Sig::MVar(_) => Ok(()),
        Sig::Mod { token, inner, .. } => {
            numbers.push(*token)?;
            add_numbers(numbers, inner.get())?;
            Ok(())
        }
        Sig::Pinned(inner) => {
            add_numbers(numbers, inner.get())?;
            Ok(())
        }
    }
}

/// Puts the numbers in signatures at the end, one after the other.
#[cycle(numbering)]
pub fn add_each(numbers: &mut Vec<u32>, sigs: &[Sig]) -> Result<(), NoMemory>
    ensures { OnOk result (numbers.new.items ≡ numbers.old.items ++ flat_map numbers_in sigs.now) }
{
    for sig in sigs {
        add_numbers(numbers, sig)?;
    }
    Ok(())
}

/// Puts the numbers in a method's signature at the end: those of its return type, then those of its parameters.
pub fn add_method_numbers(numbers: &mut Vec<u32>, sig: &MethodSig) -> Result<(), NoMemory>
    ensures { OnOk result (numbers.new.items ≡ numbers.old.items ++ flat_map numbers_in (sig.now.ret ∷ sig.now.params)) }
{
    add_numbers(numbers, &sig.ret)?;
    add_each(numbers, sig.params.as_slice())?;
    Ok(())
}
