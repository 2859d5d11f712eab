ghost use Rattle.std.specs.Prelude.{◌≡◌, ◌++◌, ◌∷◌, length, min, OnOk, OnErr, if◌then◌else◌};
ghost use Rattle.std.specs.List.{flat_map};
ghost use Rattle.byteorder.specs.Endian.{little_bytes};
ghost use Rattle.attr_blobs.specs.declared.kind.ParamKind.{out-ParamKind};
ghost use Rattle.attr_blobs.specs.Writing.{kind_bytes, width_in, element_of, text_bytes, arg_bytes, fixed_bytes, named_bytes, attribute_bytes};
ghost use Rattle.attr_blobs.specs.Answers.{Extends, Spells};

use crate::kind::ParamKind;
use crate::kinds::{width_of_element, width_of_enum};
use crate::put::{put_sized, put_text, put_text_or_null};
use crate::text::Width;
use crate::value::{Arg, AttrValue, NamedArg};
use il_base::{NoMemory, Seq};

/// Appends the spelling of a kind to the bytes (II.23.3, FieldOrPropType).
#[cycle(kinds)]
#[tactic(auto, using(crate::proofs::Layers::extends_behind, crate::proofs::Layers::extends_same))]
fn put_kind(kind: &ParamKind, out: &mut Vec<u8>) -> Result<(), NoMemory>
    ensures ok { OnOk result (out.new.items ≡ out.old.items ++ kind_bytes kind.now) }
    ensures err { OnErr result (Extends out.old.items out.new.items) }
{
    match kind {
        ParamKind::Prim(element) => {
            out.push(*element)?;
            Ok(())
        }
        ParamKind::Text => {
            out.push(0x0e)?;
            Ok(())
        }
        ParamKind::Typ => {
            out.push(0x50)?;
            Ok(())
        }
        ParamKind::Boxed => {
            out.push(0x51)?;
            Ok(())
        }
        ParamKind::Enum { name, .. } => put_enum(name.as_slice(), out),
        ParamKind::List(inner) => put_list(inner.get(), out),
    }
}

// Appends the kind of an enum to the bytes.
#[tactic(auto, using(crate::proofs::Layers::extends_behind, crate::proofs::Layers::extends_same))]
fn put_enum(name: &[u8], out: &mut Vec<u8>) -> Result<(), NoMemory>
    ensures ok { OnOk result (out.new.items ≡ out.old.items ++ 85 ∷ text_bytes name.now) }
    ensures err { OnErr result (Extends out.old.items out.new.items) }
{
    out.push(0x55)?;
    put_text(name, out)
}

// Appends the kind of a vector to the bytes.
#[cycle(kinds)]
#[tactic(auto, using(crate::proofs::Layers::extends_behind, crate::proofs::Layers::extends_same))]
fn put_list(inner: &ParamKind, out: &mut Vec<u8>) -> Result<(), NoMemory>
    ensures ok { OnOk result (out.new.items ≡ out.old.items ++ 29 ∷ kind_bytes inner.now) }
    ensures err { OnErr result (Extends out.old.items out.new.items) }
{
    out.push(0x1d)?;
    put_kind(inner, out)
}

fn width_in(kind: &ParamKind) -> Width
    ensures { result ≡ width_in (out-ParamKind kind.now) }
{
    match kind {
        ParamKind::Prim(element) => width_of_element(*element).unwrap_or(Width::Eight),
        ParamKind::Enum { size, .. } => width_of_enum(*size),
        _ => Width::Eight,
    }
}

// The kind of the elements of a vector of a kind.
fn element_of(kind: &ParamKind) -> &ParamKind
    ensures { result.now ≡ element_of kind.now }
{
    match kind {
        ParamKind::List(inner) => inner.get(),
        _ => kind,
    }
}

/// Appends the spelling of an argument of a kind to the bytes (II.23.3, FixedArg).
#[cycle(writing)]
#[tactic(auto, using(crate::proofs::Layers::extends_behind, crate::proofs::Layers::extends_same))]
fn put_arg(arg: &Arg, kind: &ParamKind, out: &mut Vec<u8>) -> Result<(), NoMemory>
    ensures ok { OnOk result (out.new.items ≡ out.old.items ++ arg_bytes arg.now kind.now) }
    ensures err { OnErr result (Extends out.old.items out.new.items) }
{
    match arg {
        Arg::Number(n) => put_sized(width_in(kind), *n, out),
        Arg::Text(text) => put_text_or_null(text, out),
        Arg::Typ(name) => put_text_or_null(name, out),
        Arg::Boxed(inner, value) => {
            put_kind(inner, out)?;
            put_arg(value.get(), inner, out)
        }
        Arg::List(list) => match list {
            None => {
                out.extend_from_slice(&[0xff; 4])?;
                Ok(())
            }
            Some(args) => {
                put_sized(Width::Four, (args.len() as u64).min(0xffff_fffe), out)?;
                put_args(args.as_slice(), element_of(kind), out)
            }
        },
    }
}

// Appends the spellings of arguments of a kind to the bytes.
#[cycle(writing)]
fn put_args(args: &[Arg], kind: &ParamKind, out: &mut Vec<u8>) -> Result<(), NoMemory>
    ensures ok { OnOk result (out.new.items ≡ out.old.items ++ flat_map (λ a. arg_bytes a kind.now) args.now) }
    ensures err { OnErr result (Extends out.old.items out.new.items) }
{
    for arg in args {
        if let Err(error) = put_arg(arg, kind, out) {
            return Err(error);
        }
    }
    Ok(())
}

/// Appends the shortest spelling of a custom attribute's value to the bytes (II.23.3), for the parameters of its
/// constructor.
pub fn write_attribute(
    value: &AttrValue,
    params: &Seq<ParamKind>,
    out: &mut Vec<u8>,
) -> Result<(), NoMemory>
    ensures ok { OnOk result (out.new.items ≡ out.old.items ++ attribute_bytes params.now value.now) }
    ensures spelled { OnOk result (Spells params.now value.now out.old.items out.new.items) }
    ensures err { OnErr result (Extends out.old.items out.new.items) }
{
    put_attribute(value, params, out)
}

#[tactic(auto, using(crate::proofs::Layers::extends_behind, crate::proofs::Layers::extends_same))]
fn put_attribute(
    value: &AttrValue,
    params: &Seq<ParamKind>,
    out: &mut Vec<u8>,
) -> Result<(), NoMemory>
    ensures ok { OnOk result (out.new.items ≡ out.old.items ++ attribute_bytes params.now value.now) }
    ensures err { OnErr result (Extends out.old.items out.new.items) }
{
    out.extend_from_slice(&[0x01, 0x00])?;
    put_fixed(params.as_slice(), value.fixed.as_slice(), out)?;
    put_sized(Width::Two, (value.named.len() as u64).min(0xffff), out)?;
    put_nameds(value.named.as_slice(), out)
}

// Appends the spellings of arguments of these kinds to the bytes, as many as there are of both.
fn put_fixed(params: &[ParamKind], args: &[Arg], out: &mut Vec<u8>) -> Result<(), NoMemory>
    ensures ok { OnOk result (out.new.items ≡ out.old.items ++ fixed_bytes params.now args.now) }
    ensures err { OnErr result (Extends out.old.items out.new.items) }
{
    for (i, kind) in params.iter().enumerate() {
        if i >= args.len() {
            return Ok(());
        }
        if let Err(error) = put_arg(&args[i], kind, out) {
            return Err(error);
        }
    }
    Ok(())
}

fn put_nameds(named: &[NamedArg], out: &mut Vec<u8>) -> Result<(), NoMemory>
    ensures ok { OnOk result (out.new.items ≡ out.old.items ++ flat_map named_bytes named.now) }
    ensures err { OnErr result (Extends out.old.items out.new.items) }
{
    for one in named {
        if let Err(error) = put_named(one, out) {
            return Err(error);
        }
    }
    Ok(())
}

#[tactic(auto, using(crate::proofs::Layers::extends_behind, crate::proofs::Layers::extends_same))]
fn put_named(named: &NamedArg, out: &mut Vec<u8>) -> Result<(), NoMemory>
    ensures ok { OnOk result (out.new.items ≡ out.old.items ++ named_bytes named.now) }
    ensures err { OnErr result (Extends out.old.items out.new.items) }
{
    out.push(if named.field { 0x53 } else { 0x54 })?;
    put_kind(&named.kind, out)?;
    put_text(named.name.as_slice(), out)?;
    put_arg(&named.value, &named.kind, out)
}
