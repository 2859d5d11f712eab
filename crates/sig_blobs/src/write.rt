ghost use Rattle.std.specs.Prelude.{◌≡◌, ◌++◌, ◌∷◌, ◌<◌, length, take, OnOk, OnErr};
ghost use Rattle.il_base.specs.blob_grammar.Numbers.{shortest};
ghost use Rattle.il_base.specs.blob_grammar.Laws.{IsSpelled};
ghost use Rattle.il_base.specs.blob_grammar.Signatures.{levels, IsType, IsMethod, IsProperty, IsField, AreLocals, IsInstance, type_bytes, method_bytes, property_bytes, field_bytes, locals_bytes, instance_bytes, parts_bytes, plain_byte, generic_byte, property_byte, method_head, types_bytes};
ghost use Rattle.sig_blobs.specs.Answers.{HasSpelling, HaveSpellings, Extends};

use crate::put::{put_counted, put_number, put_type, put_types};
use crate::types::LEVELS;
use il_base::{MethodSig, NoMemory, Seq, Sig};

/// Appends the blob of a TypeSpec to the bytes (II.23.2.14). After a refusal they are as before.
pub fn write_type(s: &Sig, out: &mut Vec<u8>) -> Result<(), NoMemory>
    requires { IsSpelled (IsType levels) s.now }
    ensures ok { OnOk result (out.new.items ≡ out.old.items ++ type_bytes s.now) }
    ensures err { OnErr result (out.new.items ≡ out.old.items) }
{
    let start = out.len();
    let put = put_type(LEVELS, s, out);
    kept(start, put, out)
}

/// Appends the blob of a method's signature to the bytes (II.23.2.1 to II.23.2.3). After a refusal they are as before.
pub fn write_method(s: &MethodSig, out: &mut Vec<u8>) -> Result<(), NoMemory>
    requires { IsSpelled IsMethod s.now }
    ensures ok { OnOk result (out.new.items ≡ out.old.items ++ method_bytes s.now) }
    ensures err { OnErr result (out.new.items ≡ out.old.items) }
{
    let start = out.len();
    let put = put_method(s, out);
    kept(start, put, out)
}

/// Appends the blob of a field's signature to the bytes (II.23.2.4). After a refusal they are as before.
pub fn write_field(s: &Sig, out: &mut Vec<u8>) -> Result<(), NoMemory>
    requires { IsSpelled IsField s.now }
    ensures ok { OnOk result (out.new.items ≡ out.old.items ++ field_bytes s.now) }
    ensures err { OnErr result (out.new.items ≡ out.old.items) }
{
    let start = out.len();
    let put = put_field(s, out);
    kept(start, put, out)
}

/// Appends the blob of some locals to the bytes (II.23.2.6). After a refusal they are as before.
pub fn write_locals(s: &Seq<Sig>, out: &mut Vec<u8>) -> Result<(), NoMemory>
    requires { IsSpelled AreLocals s.now }
    ensures ok { OnOk result (out.new.items ≡ out.old.items ++ locals_bytes s.now) }
    ensures err { OnErr result (out.new.items ≡ out.old.items) }
{
    let start = out.len();
    let put = put_led(0x07, s.as_slice(), out);
    kept(start, put, out)
}

/// Appends the blob of a property's signature to the bytes (II.23.2.5). After a refusal they are as before.
pub fn write_property(s: &MethodSig, out: &mut Vec<u8>) -> Result<(), NoMemory>
    requires { IsSpelled IsProperty s.now }
    ensures ok { OnOk result (out.new.items ≡ out.old.items ++ property_bytes s.now) }
    ensures err { OnErr result (out.new.items ≡ out.old.items) }
{
    let start = out.len();
    let put = put_property(s, out);
    kept(start, put, out)
}

/// Appends the blob of a method instance to the bytes (II.23.2.15). After a refusal they are as before.
pub fn write_instance(s: &Seq<Sig>, out: &mut Vec<u8>) -> Result<(), NoMemory>
    requires { IsSpelled IsInstance s.now }
    ensures ok { OnOk result (out.new.items ≡ out.old.items ++ instance_bytes s.now) }
    ensures err { OnErr result (out.new.items ≡ out.old.items) }
{
    let start = out.len();
    let put = put_led(0x0a, s.as_slice(), out);
    kept(start, put, out)
}

/// Removes what a failed write left after the first `start` bytes.
fn kept(start: usize, put: Result<(), NoMemory>, out: &mut Vec<u8>) -> Result<(), NoMemory>
    ensures same { result ≡ put }
    ensures ok { OnOk put (out.new.items ≡ out.old.items) }
    ensures err { OnErr put (out.new.items ≡ take start out.old.items) }
{
    if put.is_err() {
        out.truncate(start);
    }
    put
}

fn put_method(s: &MethodSig, out: &mut Vec<u8>) -> Result<(), NoMemory>
    requires { IsSpelled IsMethod s.now }
    ensures ok { OnOk result (out.new.items ≡ out.old.items ++ method_bytes s.now) }
    ensures err { OnErr result (Extends out.old.items out.new.items) }
{
    put_head(s.this, s.generic, out)?;
    put_parts(&s.ret, &s.params, out)
}

/// The flags, and the number of generic parameters where it isn't 0.
#[tactic(auto, using(crate::proofs::Layers::extends_behind, crate::proofs::Layers::extends_same))]
fn put_head(this: bool, generic: u32, out: &mut Vec<u8>) -> Result<(), NoMemory>
    requires { generic < 536870912 }
    ensures ok { OnOk result (out.new.items ≡ out.old.items ++ method_head this generic) }
    ensures err { OnErr result (Extends out.old.items out.new.items) }
{
    if generic == 0 {
        out.push(plain_of(this))?;
        return Ok(());
    }
    out.push(generic_of(this))?;
    put_number(generic, out)
}

fn put_property(s: &MethodSig, out: &mut Vec<u8>) -> Result<(), NoMemory>
    requires { IsSpelled IsProperty s.now }
    ensures ok { OnOk result (out.new.items ≡ out.old.items ++ property_bytes s.now) }
    ensures err { OnErr result (Extends out.old.items out.new.items) }
{
    out.push(property_of(s.this))?;
    put_parts(&s.ret, &s.params, out)
}

fn put_field(s: &Sig, out: &mut Vec<u8>) -> Result<(), NoMemory>
    requires { IsSpelled IsField s.now }
    ensures ok { OnOk result (out.new.items ≡ out.old.items ++ field_bytes s.now) }
    ensures err { OnErr result (Extends out.old.items out.new.items) }
{
    out.push(0x06)?;
    put_type(LEVELS, s, out)
}

/// A leading byte, a count and types.
#[tactic(auto, using(crate::proofs::Layers::extends_behind, crate::proofs::Layers::extends_same))]
fn put_led(lead: u8, types: &[Sig], out: &mut Vec<u8>) -> Result<(), NoMemory>
    requires { HaveSpellings levels types.now }
    ensures ok { OnOk result (out.new.items ≡ out.old.items ++ lead ∷ (shortest (length types.now) ++ types_bytes types.now)) }
    ensures err { OnErr result (Extends out.old.items out.new.items) }
{
    out.push(lead)?;
    put_counted(LEVELS, types, out)
}

/// The count of parameters, the return type and the parameters' types.
#[tactic(auto, using(crate::proofs::Layers::extends_behind, crate::proofs::Layers::extends_same))]
fn put_parts(ret: &Sig, params: &Seq<Sig>, out: &mut Vec<u8>) -> Result<(), NoMemory>
    requires ret { HasSpelling levels ret.now }
    requires params { HaveSpellings levels params.now }
    ensures ok { OnOk result (out.new.items ≡ out.old.items ++ parts_bytes ret.now params.now) }
    ensures err { OnErr result (Extends out.old.items out.new.items) }
{
    put_number(params.len() as u32, out)?;
    put_type(LEVELS, ret, out)?;
    put_types(LEVELS, params.as_slice(), out)
}

/// The first byte of a method that isn't generic.
fn plain_of(this: bool) -> u8
    ensures { result ≡ plain_byte this }
{
    if this { 0x20 } else { 0x00 }
}

/// The first byte of a generic method.
fn generic_of(this: bool) -> u8
    ensures { result ≡ generic_byte this }
{
    if this { 0x30 } else { 0x10 }
}

/// The first byte of a property.
fn property_of(this: bool) -> u8
    ensures { result ≡ property_byte this }
{
    if this { 0x28 } else { 0x08 }
}
