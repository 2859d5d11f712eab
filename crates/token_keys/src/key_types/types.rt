//! The types in signatures and keys, by their places among the types of the world.

ghost use Rattle.std.specs.Prelude.{◌≡◌, ◌++◌, OnOk};
ghost use Rattle.std.specs.List.{flat_map};
ghost use Rattle.rules.specs.merge_rules.Refs.{type_of_number, types_of_sig, types_of_sigs, types_of_key, types_of_method_sig};
ghost use Rattle.token_keys.specs.key_codes.Keys as coded;

use crate::key_codes::keys::TypeKey;
use crate::sig_numbers::numbers::add_numbers;
use il_base::{MethodSig, NoMemory, Sig, TypeId};
use std::alloc::Global;

/// Puts the type of a number at the end, which is one more than the type's place; 0 has none.
fn push_number(number: u32, types: &mut Vec<TypeId>) -> Result<(), NoMemory>
    ensures { OnOk result (types.new.items ≡ types.old.items ++ type_of_number number) }
{
    if number == 0 {
        return Ok(());
    }
    types.push(TypeId(number - 1))?;
    Ok(())
}

/// Puts the types of numbers at the end.
fn push_numbered(numbers: &[u32], types: &mut Vec<TypeId>) -> Result<(), NoMemory>
    ensures { OnOk result (types.new.items ≡ types.old.items ++ flat_map type_of_number numbers.now) }
{
    for number in numbers {
        push_number(*number, types)?;
    }
    Ok(())
}

/// Puts the types in a signature at the end.
pub fn push_of_sig(alloc: Global, sig: &Sig, types: &mut Vec<TypeId>) -> Result<(), NoMemory>
    ensures { OnOk result (types.new.items ≡ types.old.items ++ types_of_sig sig.now) }
{
    let mut numbers = Vec::new(alloc);
    add_numbers(&mut numbers, sig)?;
    push_numbered(numbers.as_slice(), types)?;
    Ok(())
}

/// Puts the types in signatures at the end.
pub fn push_of_sigs(alloc: Global, sigs: &[Sig], types: &mut Vec<TypeId>) -> Result<(), NoMemory>
    ensures { OnOk result (types.new.items ≡ types.old.items ++ types_of_sigs sigs.now) }
{
    for sig in sigs {
        push_of_sig(alloc, sig, types)?;
    }
    Ok(())
}

/// Puts the types in a method's signature at the end: that of the return type, then those of the parameters.
pub fn push_of_method_sig(
    alloc: Global,
    sig: &MethodSig,
    types: &mut Vec<TypeId>,
) -> Result<(), NoMemory>
    ensures { OnOk result (types.new.items ≡ types.old.items ++ types_of_method_sig sig.now) }
{
    push_of_sig(alloc, &sig.ret, types)?;
    push_of_sigs(alloc, sig.params.as_slice(), types)?;
    Ok(())
}

/// Puts the types in the key of a type at the end.
pub fn push_of_key(alloc: Global, key: &TypeKey, types: &mut Vec<TypeId>) -> Result<(), NoMemory>
    ensures { OnOk result (types.new.items ≡ types.old.items ++ types_of_key (coded.type_key key.now)) }
{
    match key {
        TypeKey::Named(id) => {
            types.push(*id)?;
            Ok(())
        }
        TypeKey::Spec(sig) => {
            push_of_sig(alloc, sig, types)?;
            Ok(())
        }
    }
}
