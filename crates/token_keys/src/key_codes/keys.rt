//! Keys by which references are told apart, and their codes.

ghost use Rattle.std.specs.Prelude.{◌≡◌, ◌∷◌, ◌++◌, OnOk};
ghost use Rattle.link_faults.specs.Codes.{type_code, with_text};
ghost use Rattle.token_keys.specs.key_codes.Codes.{method_sig_code};
ghost use Rattle.token_keys.specs.key_codes.KeyCodes.{type_key_code, method_key_code, field_key_code, instance_key_code, member_key_code};
ghost use Rattle.token_keys.specs.key_codes.Keys.{type_key, method_key, field_key, instance_key, member_key};

use crate::key_codes::exprs::add_expr;
use crate::key_codes::numbers::{add_pair, add_text};
use crate::key_codes::sigs::{add_method_sig, add_sig, add_sigs};
use il_base::world_model::TypeExpr;
use il_base::{FieldId, MethodId, MethodSig, NoMemory, Seq, Sig, Text, TypeId};

/// A type.
#[derive(Drop)]
pub enum TypeKey {
    /// By its place among the types of the world; the references that name nothing come after these.
    Named(TypeId),
    /// A signature over the types of the world.
    Spec(Sig),
}

/// A method that names nothing.
#[derive(Drop)]
pub struct AbsentMethod {
    pub parent: TypeKey,
    pub name: Text,
    /// Over the types of the world.
    pub signature: MethodSig,
}

/// A method.
#[derive(Drop)]
pub enum MethodKey {
    /// A definition that is named by its own token.
    Own(MethodId),
    /// A member with the type in which it is found.
    Found(MethodId, TypeExpr),
    Absent(AbsentMethod),
}

/// A field.
#[derive(Drop)]
pub enum FieldKey {
    /// A definition that is named by its own token.
    Own(FieldId),
    /// A member with the type in which it is found.
    Found(FieldId, TypeExpr),
}

/// A method with arguments.
#[derive(Drop)]
pub struct InstanceKey {
    pub method: MethodKey,
    /// Over the types of the world.
    pub args: Seq<Sig>,
}

/// What a MemberRef row names.
#[derive(Drop)]
pub enum MemberKey {
    Method(MethodId, TypeExpr),
    Field(FieldId, TypeExpr),
    Absent(AbsentMethod),
}

/// Adds the code of a type.
pub fn add_type_key(code: &mut Vec<u32>, key: &TypeKey) -> Result<(), NoMemory>
    ensures { OnOk result (code.new.items ≡ code.old.items ++ type_key_code (type_key key.now)) }
{
    match key {
        TypeKey::Named(id) => {
            add_pair(code, 0, id.0)?;
            Ok(())
        }
        TypeKey::Spec(sig) => {
            code.push(1)?;
            add_sig(code, sig)?;
            Ok(())
        }
    }
}

/// Adds a number for a kind, that of a member, and the code of the type in which it is found.
fn add_found(code: &mut Vec<u32>, kind: u32, member: u32, owner: &TypeExpr) -> Result<(), NoMemory>
    ensures { OnOk result (code.new.items ≡ code.old.items ++ kind ∷ member ∷ type_code owner.now) }
{
    add_pair(code, kind, member)?;
    add_expr(code, owner)?;
    Ok(())
}

/// Adds the code of a method that names nothing.
fn add_absent(code: &mut Vec<u32>, method: &AbsentMethod) -> Result<(), NoMemory>
    ensures { OnOk result (code.new.items ≡ code.old.items ++ 2 ∷ type_key_code (type_key method.now.parent) ++ with_text method.now.name (method_sig_code method.now.signature)) }
{
    code.push(2)?;
    add_type_key(code, &method.parent)?;
    add_text(code, method.name.as_slice())?;
    add_method_sig(code, &method.signature)?;
    Ok(())
}

/// Adds the code of a method.
pub fn add_method_key(code: &mut Vec<u32>, key: &MethodKey) -> Result<(), NoMemory>
    ensures { OnOk result (code.new.items ≡ code.old.items ++ method_key_code (method_key key.now)) }
{
    match key {
        MethodKey::Own(id) => {
            add_pair(code, 0, id.0)?;
            Ok(())
        }
        MethodKey::Found(id, owner) => {
            add_found(code, 1, id.0, owner)?;
            Ok(())
        }
        MethodKey::Absent(method) => {
            add_absent(code, method)?;
            Ok(())
        }
    }
}

/// Adds the code of a field.
pub fn add_field_key(code: &mut Vec<u32>, key: &FieldKey) -> Result<(), NoMemory>
    ensures { OnOk result (code.new.items ≡ code.old.items ++ field_key_code (field_key key.now)) }
{
    match key {
        FieldKey::Own(id) => {
            add_pair(code, 0, id.0)?;
            Ok(())
        }
        FieldKey::Found(id, owner) => {
            add_found(code, 1, id.0, owner)?;
            Ok(())
        }
    }
}

/// Adds the code of a method with arguments.
pub fn add_instance_key(code: &mut Vec<u32>, key: &InstanceKey) -> Result<(), NoMemory>
    ensures { OnOk result (code.new.items ≡ code.old.items ++ instance_key_code (instance_key key.now)) }
{
    add_method_key(code, &key.method)?;
    add_sigs(code, key.args.as_slice())?;
    Ok(())
}

/// Adds the code of what a MemberRef row names.
pub fn add_member_key(code: &mut Vec<u32>, key: &MemberKey) -> Result<(), NoMemory>
    ensures { OnOk result (code.new.items ≡ code.old.items ++ member_key_code (member_key key.now)) }
{
    match key {
        MemberKey::Method(id, owner) => {
            add_found(code, 0, id.0, owner)?;
            Ok(())
        }
        MemberKey::Field(id, owner) => {
            add_found(code, 1, id.0, owner)?;
            Ok(())
        }
        MemberKey::Absent(method) => {
            add_absent(code, method)?;
            Ok(())
        }
    }
}
