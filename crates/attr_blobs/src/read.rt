ghost use Rattle.std.specs.Prelude.{◌≡◌};
ghost use Rattle.attr_blobs.specs.Values.{fixed_at, named_by, named_at, nameds_at, prolog_at, value_at, whole_at, value_of_blob};
ghost use Rattle.attr_blobs.specs.Answers.{Gives, Answers, Follows};

use crate::args::arg_of;
use crate::error::{AttrError, Unread};
use crate::kind::ParamKind;
use crate::kinds::kind_of;
use crate::text::{CUT, Width, sized_of, text_of};
use crate::value::{Arg, AttrValue, EnumSize, NamedArg};
use il_base::Seq;
use std::alloc::Global;

/// The most constructs that stand open at one place: kinds of vectors and of boxed values, vectors and boxed values.
const LEVELS: u32 = 64;

/// The value that a custom attribute's blob spells (II.23.3), for the parameters of its constructor. An enum that
/// the value names has the size of the first of `enums` whose name its text spells, or 4 bytes without one.
pub fn read_attribute(
    alloc: Global,
    bytes: &[u8],
    params: &Seq<ParamKind>,
    enums: &Seq<EnumSize>,
) -> Result<AttrValue, AttrError>
    ensures gives { Answers result (value_of_blob enums.now params.now bytes.now) }
    ensures grammar { Follows result enums.now params.now bytes.now }
{
    answer_of(alloc, enums.as_slice(), params.as_slice(), bytes)
}

// The value, or the place of the bad byte, counted from the front.
fn answer_of(
    alloc: Global,
    enums: &[EnumSize],
    params: &[ParamKind],
    bytes: &[u8],
) -> Result<AttrValue, AttrError>
    ensures { Answers result (value_of_blob enums.now params.now bytes.now) }
{
    match whole_of(alloc, enums, params, bytes) {
        Ok(value) => Ok(value),
        Err(Unread::Bad { left }) => Err(AttrError::Bad {
            at: bytes.len().saturating_sub(left).min(0xffff_ffff) as u32,
        }),
        Err(Unread::Exhausted) => Err(AttrError::NoMemory),
    }
}

// A blob is read to its end: the first byte that is left over is bad.
fn whole_of(
    alloc: Global,
    enums: &[EnumSize],
    params: &[ParamKind],
    bytes: &[u8],
) -> Result<AttrValue, Unread>
    ensures { Gives (λ x. x) result (whole_at enums.now params.now bytes.now) }
{
    let (value, rest) = value_of(alloc, enums, params, bytes)?;
    if rest.is_empty() {
        Ok(value)
    } else {
        Err(Unread::Bad { left: rest.len() })
    }
}

#[tactic(auto, unfolding(crate::specs::Values::value_at))]
fn value_of<'a>(
    alloc: Global,
    enums: &[EnumSize],
    params: &[ParamKind],
    bytes: &'a [u8],
) -> Result<(AttrValue, &'a [u8]), Unread>
    ensures { Gives (λ x. (x.0, x.1.now)) result (value_at enums.now params.now bytes.now) }
{
    let rest = prolog_of(bytes)?;
    let (fixed, rest) = fixed_of(alloc, enums, params, rest)?;
    let (count, rest) = sized_of(Width::Two, rest)?;
    let (named, rest) = nameds_of(alloc, enums, count, rest)?;
    Ok((AttrValue { fixed, named }, rest))
}

// The bytes after 01 00.
#[tactic(auto, unfolding(crate::specs::Values::prolog_at))]
fn prolog_of(bytes: &[u8]) -> Result<&[u8], Unread>
    ensures { Gives (λ r. r.now) result (prolog_at bytes.now) }
{
    match bytes {
        [] => Err(CUT),
        [0x01] => Err(CUT),
        [0x01, 0x00, rest @ ..] => Ok(rest),
        [0x01, _, ..] => Err(Unread::Bad {
            left: bytes.len() - 1,
        }),
        [_, ..] => Err(Unread::Bad { left: bytes.len() }),
    }
}

// The constructor's arguments.
fn fixed_of<'a>(
    alloc: Global,
    enums: &[EnumSize],
    params: &[ParamKind],
    bytes: &'a [u8],
) -> Result<(Seq<Arg>, &'a [u8]), Unread>
    ensures { Gives (λ x. (x.0, x.1.now)) result (fixed_at enums.now params.now bytes.now) }
{
    let mut args = Seq::new(alloc);
    let mut rest = bytes;
    for kind in params {
        let (one, after) = arg_of(alloc, enums, LEVELS, kind, rest)?;
        args.push(one)?;
        rest = after;
    }
    Ok((args, rest))
}

// So many named arguments, one after another.
fn nameds_of<'a>(
    alloc: Global,
    enums: &[EnumSize],
    count: u64,
    bytes: &'a [u8],
) -> Result<(Seq<NamedArg>, &'a [u8]), Unread>
    ensures { Gives (λ x. (x.0, x.1.now)) result (nameds_at (named_at enums.now) count bytes.now) }
{
    let mut named = Seq::new(alloc);
    let mut rest = bytes;
    for _ in 0..count {
        let (one, after) = named_of(alloc, enums, rest)?;
        named.push(one)?;
        rest = after;
    }
    Ok((named, rest))
}

// FIELD or PROPERTY, and what follows it.
#[tactic(auto, unfolding(crate::specs::Values::named_at))]
fn named_of<'a>(
    alloc: Global,
    enums: &[EnumSize],
    bytes: &'a [u8],
) -> Result<(NamedArg, &'a [u8]), Unread>
    ensures { Gives (λ x. (x.0, x.1.now)) result (named_at enums.now bytes.now) }
{
    match bytes {
        [] => Err(CUT),
        [0x53, rest @ ..] => named_behind(alloc, enums, true, rest),
        [0x54, rest @ ..] => named_behind(alloc, enums, false, rest),
        [_, ..] => Err(Unread::Bad { left: bytes.len() }),
    }
}

// The kind, the name and the value of a field or a property.
fn named_behind<'a>(
    alloc: Global,
    enums: &[EnumSize],
    field: bool,
    bytes: &'a [u8],
) -> Result<(NamedArg, &'a [u8]), Unread>
    ensures { Gives (λ x. (x.0, x.1.now)) result (named_by enums.now field bytes.now) }
{
    let (kind, rest) = kind_of(alloc, enums, LEVELS, bytes)?;
    let (name, rest) = text_of(alloc, rest)?;
    let (value, rest) = arg_of(alloc, enums, LEVELS, &kind, rest)?;
    Ok((
        NamedArg {
            field,
            name,
            kind,
            value,
        },
        rest,
    ))
}
