//! Copies of keys.

ghost use Rattle.std.specs.Prelude.{◌≡◌, IfOk};

use crate::key_codes::keys::{AbsentMethod, InstanceKey, MethodKey, TypeKey};
use crate::key_copies::sigs::{copy_method_sig, copy_sig, copy_sigs};
use il_base::{NoMemory, Seq};
use std::alloc::Global;

/// A copy of a type's key.
pub fn copy_type_key(alloc: Global, key: &TypeKey) -> Result<TypeKey, NoMemory>
    ensures { IfOk result (λ copy. copy ≡ key.now) }
{
    match key {
        TypeKey::Named(id) => Ok(TypeKey::Named(*id)),
        TypeKey::Spec(sig) => {
            let copy = copy_sig(alloc, sig)?;
            Ok(TypeKey::Spec(copy))
        }
    }
}

/// A copy of a method that names nothing.
pub fn copy_absent(alloc: Global, method: &AbsentMethod) -> Result<AbsentMethod, NoMemory>
    ensures { IfOk result (λ copy. copy ≡ method.now) }
{
    let parent = copy_type_key(alloc, &method.parent)?;
    let name = Seq::from_slice(alloc, method.name.as_slice())?;
    let signature = copy_method_sig(alloc, &method.signature)?;
    Ok(AbsentMethod {
        parent,
        name,
        signature,
    })
}

/// A copy of a method's key.
pub fn copy_method_key(alloc: Global, key: &MethodKey) -> Result<MethodKey, NoMemory>
    ensures { IfOk result (λ copy. copy ≡ key.now) }
{
    match key {
        MethodKey::Own(id) => Ok(MethodKey::Own(*id)),
        MethodKey::Found(id, owner) => {
            let owner = owner.copy(alloc)?;
            Ok(MethodKey::Found(*id, owner))
        }
        MethodKey::Absent(method) => {
            let copy = copy_absent(alloc, method)?;
            Ok(MethodKey::Absent(copy))
        }
    }
}

/// A copy of the key of a method with arguments.
pub fn copy_instance_key(alloc: Global, key: &InstanceKey) -> Result<InstanceKey, NoMemory>
    ensures { IfOk result (λ copy. copy ≡ key.now) }
{
    let method = copy_method_key(alloc, &key.method)?;
    let args = copy_sigs(alloc, key.args.as_slice())?;
    Ok(InstanceKey { method, args })
}
