//! Signatures as blobs (II.23.2), empty for ones without a reading.

ghost use Rattle.std.specs.Prelude.{◌≡◌, IfOk};
ghost use Rattle.il_base.specs.blob_grammar.Laws.{IsSpelled};
ghost use Rattle.il_base.specs.blob_grammar.Signatures.{levels, IsType, IsMethod, IsProperty, IsField, AreLocals, IsInstance};
ghost use Rattle.il_base.specs.blob_grammar.Signatures as spell;
ghost use Rattle.rules.specs.file_layout.Rows.{method_blob, member_blob, locals_blob};
ghost use Rattle.rules.specs.record_layout.Rows.{field_blob, property_blob, type_blob, instance_blob};
ghost use Rattle.rules.specs.declared.record_layout.value.Value.TheVariants as value;
ghost use Rattle.record_writer.specs.row_writer.CanWrite.{HasSpelling, HasMemberSpelling};

use il_base::world_model::{Known, MemberSig};
use il_base::{MethodSig, NoMemory, Seq, Sig, Text};
use rules::record_layout::Value;
use sig_blobs::{
    write_field, write_instance, write_locals, write_method, write_property, write_type,
};
use std::alloc::Global;

/// The blob of a method's signature.
fn method_bytes(alloc: Global, s: &MethodSig) -> Result<Text, NoMemory>
    requires { IsSpelled IsMethod s.now }
    ensures { IfOk result (λ b. b ≡ spell.method_bytes s.now) }
{
    let mut bytes = Vec::new(alloc);
    write_method(s, &mut bytes)?;
    Ok(Seq::from_vec(bytes))
}

/// The blob of a field's signature.
fn field_bytes(alloc: Global, s: &Sig) -> Result<Text, NoMemory>
    requires { IsSpelled IsField s.now }
    ensures { IfOk result (λ b. b ≡ spell.field_bytes s.now) }
{
    let mut bytes = Vec::new(alloc);
    write_field(s, &mut bytes)?;
    Ok(Seq::from_vec(bytes))
}

/// The blob of some locals.
fn locals_bytes(alloc: Global, s: &Seq<Sig>) -> Result<Text, NoMemory>
    requires { IsSpelled AreLocals s.now }
    ensures { IfOk result (λ b. b ≡ spell.locals_bytes s.now) }
{
    let mut bytes = Vec::new(alloc);
    write_locals(s, &mut bytes)?;
    Ok(Seq::from_vec(bytes))
}

/// The blob of a property's signature.
fn property_bytes(alloc: Global, s: &MethodSig) -> Result<Text, NoMemory>
    requires { IsSpelled IsProperty s.now }
    ensures { IfOk result (λ b. b ≡ spell.property_bytes s.now) }
{
    let mut bytes = Vec::new(alloc);
    write_property(s, &mut bytes)?;
    Ok(Seq::from_vec(bytes))
}

/// The blob of a type.
fn type_bytes(alloc: Global, s: &Sig) -> Result<Text, NoMemory>
    requires { IsSpelled (IsType levels) s.now }
    ensures { IfOk result (λ b. b ≡ spell.type_bytes s.now) }
{
    let mut bytes = Vec::new(alloc);
    write_type(s, &mut bytes)?;
    Ok(Seq::from_vec(bytes))
}

/// The blob of a method's type arguments.
fn instance_bytes(alloc: Global, s: &Seq<Sig>) -> Result<Text, NoMemory>
    requires { IsSpelled IsInstance s.now }
    ensures { IfOk result (λ b. b ≡ spell.instance_bytes s.now) }
{
    let mut bytes = Vec::new(alloc);
    write_instance(s, &mut bytes)?;
    Ok(Seq::from_vec(bytes))
}

pub fn method(alloc: Global, signature: &Known<MethodSig>) -> Result<Value, NoMemory>
    requires { HasSpelling IsMethod signature.now }
    ensures { IfOk result (λ v. v ≡ value.Blob (method_blob signature.now)) }
{
    match signature {
        Known::Good(s) => Ok(Value::Blob(method_bytes(alloc, s)?)),
        Known::Bad(_) => Ok(Value::Blob(Seq::new(alloc))),
    }
}

pub fn field(alloc: Global, signature: &Known<Sig>) -> Result<Value, NoMemory>
    requires { HasSpelling IsField signature.now }
    ensures { IfOk result (λ v. v ≡ value.Blob (field_blob signature.now)) }
{
    match signature {
        Known::Good(s) => Ok(Value::Blob(field_bytes(alloc, s)?)),
        Known::Bad(_) => Ok(Value::Blob(Seq::new(alloc))),
    }
}

pub fn member(alloc: Global, signature: &Known<MemberSig>) -> Result<Value, NoMemory>
    requires { HasMemberSpelling signature.now }
    ensures { IfOk result (λ v. v ≡ value.Blob (member_blob signature.now)) }
{
    match signature {
        Known::Good(MemberSig::Method(s)) => Ok(Value::Blob(method_bytes(alloc, s)?)),
        Known::Good(MemberSig::Field(s)) => Ok(Value::Blob(field_bytes(alloc, s)?)),
        Known::Bad(_) => Ok(Value::Blob(Seq::new(alloc))),
    }
}

pub fn locals(alloc: Global, signature: &Known<Seq<Sig>>) -> Result<Value, NoMemory>
    requires { HasSpelling AreLocals signature.now }
    ensures { IfOk result (λ v. v ≡ value.Blob (locals_blob signature.now)) }
{
    match signature {
        Known::Good(types) => Ok(Value::Blob(locals_bytes(alloc, types)?)),
        Known::Bad(_) => Ok(Value::Blob(Seq::new(alloc))),
    }
}

pub fn property(alloc: Global, signature: &Known<MethodSig>) -> Result<Value, NoMemory>
    requires { HasSpelling IsProperty signature.now }
    ensures { IfOk result (λ v. v ≡ value.Blob (property_blob signature.now)) }
{
    match signature {
        Known::Good(s) => Ok(Value::Blob(property_bytes(alloc, s)?)),
        Known::Bad(_) => Ok(Value::Blob(Seq::new(alloc))),
    }
}

pub fn type_spec(alloc: Global, signature: &Known<Sig>) -> Result<Value, NoMemory>
    requires { HasSpelling (IsType levels) signature.now }
    ensures { IfOk result (λ v. v ≡ value.Blob (type_blob signature.now)) }
{
    match signature {
        Known::Good(s) => Ok(Value::Blob(type_bytes(alloc, s)?)),
        Known::Bad(_) => Ok(Value::Blob(Seq::new(alloc))),
    }
}

pub fn instance(alloc: Global, signature: &Known<Seq<Sig>>) -> Result<Value, NoMemory>
    requires { HasSpelling IsInstance signature.now }
    ensures { IfOk result (λ v. v ≡ value.Blob (instance_blob signature.now)) }
{
    match signature {
        Known::Good(types) => Ok(Value::Blob(instance_bytes(alloc, types)?)),
        Known::Bad(_) => Ok(Value::Blob(Seq::new(alloc))),
    }
}
