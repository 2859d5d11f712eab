ghost use Rattle.std.specs.Prelude.{◌≡◌, ◌++◌, ◌<◌, ◌∷◌, [], length, take, All, OnOk, OnErr};
ghost use Rattle.il_base.specs.blob_grammar.Numbers.{shortest};
ghost use Rattle.il_base.specs.blob_grammar.Tokens.{token_bytes};
ghost use Rattle.il_base.specs.blob_grammar.Signatures.{type_bytes, types_bytes, class_byte, modifier_byte};
ghost use Rattle.sig_blobs.specs.Answers.{HasSpelling, HaveSpellings, Extends};

use il_base::{NoMemory, Sig};

/// Appends the shortest spelling of a number to the bytes (II.23.2).
#[tactic(auto, unfolding(il_base::specs::blob_grammar::Numbers::shortest))]
pub fn put_number(n: u32, out: &mut Vec<u8>) -> Result<(), NoMemory>
    requires { n < 536870912 }
    ensures ok { OnOk result (out.new.items ≡ out.old.items ++ shortest n) }
    ensures err { OnErr result (out.new.items ≡ out.old.items) }
{
    if n < 0x80 {
        out.push(n as u8)?;
    } else if n < 0x4000 {
        out.extend_from_slice(&[(0x80 + n / 0x100) as u8, (n % 0x100) as u8])?;
    } else {
        out.extend_from_slice(&[
            (0xc0 + n / 0x100_0000) as u8,
            (n / 0x1_0000 % 0x100) as u8,
            (n / 0x100 % 0x100) as u8,
            (n % 0x100) as u8,
        ])?;
    }
    Ok(())
}

/// Appends the shortest spelling of a token to the bytes (II.23.2.8).
#[tactic(auto, unfolding(il_base::specs::blob_grammar::Tokens::token_bytes))]
pub fn put_token(token: u32, out: &mut Vec<u8>) -> Result<(), NoMemory>
    ensures ok { OnOk result (out.new.items ≡ out.old.items ++ token_bytes token) }
    ensures err { OnErr result (out.new.items ≡ out.old.items) }
{
    let tag = match token / 0x100_0000 {
        2 => 0,
        1 => 1,
        _ => 2,
    };
    put_number(token % 0x100_0000 * 4 + tag, out)
}

/// VALUETYPE or CLASS.
fn class_of(value: bool) -> u8
    ensures { result ≡ class_byte value }
{
    if value { 0x11 } else { 0x12 }
}

/// CMOD_REQD or CMOD_OPT.
fn modifier_of(required: bool) -> u8
    ensures { result ≡ modifier_byte required }
{
    if required { 0x1f } else { 0x20 }
}

/// Appends a leading byte and a number to the bytes.
#[tactic(auto, using(crate::proofs::Layers::extends_behind, crate::proofs::Layers::extends_same))]
fn put_indexed(lead: u8, n: u32, out: &mut Vec<u8>) -> Result<(), NoMemory>
    requires { n < 536870912 }
    ensures ok { OnOk result (out.new.items ≡ out.old.items ++ lead ∷ shortest n) }
    ensures err { OnErr result (Extends out.old.items out.new.items) }
{
    out.push(lead)?;
    put_number(n, out)
}

/// Appends a leading byte and a token to the bytes.
#[tactic(auto, using(crate::proofs::Layers::extends_behind, crate::proofs::Layers::extends_same))]
fn put_tokened(lead: u8, token: u32, out: &mut Vec<u8>) -> Result<(), NoMemory>
    ensures ok { OnOk result (out.new.items ≡ out.old.items ++ lead ∷ token_bytes token) }
    ensures err { OnErr result (Extends out.old.items out.new.items) }
{
    out.push(lead)?;
    put_token(token, out)
}

/// Appends the spelling of a type to the bytes, where at most `room` constructs that hold a type may open.
#[cycle(writing)]
pub fn put_type(room: u32, s: &Sig, out: &mut Vec<u8>) -> Result<(), NoMemory>
    requires { HasSpelling room s.now }
    ensures ok { OnOk result (out.new.items ≡ out.old.items ++ type_bytes s.now) }
    ensures err { OnErr result (Extends out.old.items out.new.items) }
{
    let below = room.saturating_sub(1);
    match s {
        Sig::Prim(byte) => {
            out.push(*byte)?;
            Ok(())
        }
        Sig::Named { value, token } => put_tokened(class_of(*value), *token, out),
        Sig::Array(inner) => put_holder(below, 0x1d, inner.get(), out),
        Sig::ByRef(inner) => put_holder(below, 0x10, inner.get(), out),
        Sig::Inst { value, token, args } => {
            put_instance(below, *value, *token, args.as_slice(), out)
        }
        Sig::Var(n) => put_indexed(0x13, *n, out),
        Sig::MVar(n) => put_indexed(0x1e, *n, out),
        Sig::Mod {
            required,
            token,
            inner,
        } => put_modified(below, *required, *token, inner.get(), out),
        Sig::Pinned(inner) => put_holder(below, 0x45, inner.get(), out),
    }
}

/// Appends a leading byte and the type that it holds to the bytes.
#[cycle(writing)]
#[tactic(auto, using(crate::proofs::Layers::extends_behind, crate::proofs::Layers::extends_same))]
fn put_holder(room: u32, lead: u8, inner: &Sig, out: &mut Vec<u8>) -> Result<(), NoMemory>
    requires { HasSpelling room inner.now }
    ensures ok { OnOk result (out.new.items ≡ out.old.items ++ lead ∷ type_bytes inner.now) }
    ensures err { OnErr result (Extends out.old.items out.new.items) }
{
    out.push(lead)?;
    put_type(room, inner, out)
}

/// Appends a custom modifier and the type that it modifies to the bytes (II.23.2.7).
#[cycle(writing)]
#[tactic(auto, using(crate::proofs::Layers::extends_behind, crate::proofs::Layers::extends_same))]
fn put_modified(
    room: u32,
    required: bool,
    token: u32,
    inner: &Sig,
    out: &mut Vec<u8>,
) -> Result<(), NoMemory>
    requires { HasSpelling room inner.now }
    ensures ok { OnOk result (out.new.items ≡ out.old.items ++ modifier_byte required ∷ (token_bytes token ++ type_bytes inner.now)) }
    ensures err { OnErr result (Extends out.old.items out.new.items) }
{
    put_tokened(modifier_of(required), token, out)?;
    put_type(room, inner, out)
}

/// Appends a generic type and its arguments to the bytes.
#[cycle(writing)]
#[tactic(auto, using(crate::proofs::Layers::extends_behind, crate::proofs::Layers::extends_same))]
fn put_instance(
    room: u32,
    value: bool,
    token: u32,
    args: &[Sig],
    out: &mut Vec<u8>,
) -> Result<(), NoMemory>
    requires { HaveSpellings room args.now }
    ensures ok { OnOk result (out.new.items ≡ out.old.items ++ 21 ∷ class_byte value ∷ (token_bytes token ++ shortest (length args.now) ++ types_bytes args.now)) }
    ensures err { OnErr result (Extends out.old.items out.new.items) }
{
    out.push(0x15)?;
    put_tokened(class_of(value), token, out)?;
    put_counted(room, args, out)
}

/// Appends the count of some types and their spellings to the bytes.
#[cycle(writing)]
#[tactic(auto, using(crate::proofs::Layers::extends_behind, crate::proofs::Layers::extends_same))]
pub fn put_counted(room: u32, types: &[Sig], out: &mut Vec<u8>) -> Result<(), NoMemory>
    requires { HaveSpellings room types.now }
    ensures ok { OnOk result (out.new.items ≡ out.old.items ++ shortest (length types.now) ++ types_bytes types.now) }
    ensures err { OnErr result (Extends out.old.items out.new.items) }
{
    put_number(types.len() as u32, out)?;
    put_types(room, types, out)
}

/// Appends the spellings of some types to the bytes.
#[cycle(writing)]
#[tactic(auto, using(crate::proofs::Layers::extends_behind, crate::proofs::Layers::extends_same), unfolding(il_base::specs::blob_grammar::Signatures::types_bytes))]
pub fn put_types(room: u32, types: &[Sig], out: &mut Vec<u8>) -> Result<(), NoMemory>
    requires { All (HasSpelling room) types.now }
    ensures ok { OnOk result (out.new.items ≡ out.old.items ++ types_bytes types.now) }
    ensures err { OnErr result (Extends out.old.items out.new.items) }
{
    for one in types {
        put_type(room, one, out)?;
    }
    Ok(())
}
