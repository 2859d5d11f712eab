ghost use Rattle.std.specs.Prelude.{◌≡◌};
ghost use Rattle.attr_blobs.specs.declared.kind.ParamKind.{out-ParamKind};
ghost use Rattle.attr_blobs.specs.Values.{number_at, number_by, leaf_arg_by, list_at, list_by, args_at, boxed_at, arg_by, arg_at};
ghost use Rattle.attr_blobs.specs.Answers.{Gives};

use crate::error::Unread;
use crate::kind::ParamKind;
use crate::kinds::{kind_of, width_of_element, width_of_enum};
use crate::text::{Width, sized_of, text_or_null_of};
use crate::value::{Arg, EnumSize};
use il_base::{Boxed, Seq};
use std::alloc::Global;

/// The argument of a kind in front (II.23.3, FixedArg), where at most `room` constructs may open, and the bytes
/// after it.
#[cycle(args)]
#[tactic(auto, unfolding(crate::specs::Values::arg_at))]
pub fn arg_of<'a>(
    alloc: Global,
    enums: &[EnumSize],
    room: u32,
    kind: &ParamKind,
    bytes: &'a [u8],
) -> Result<(Arg, &'a [u8]), Unread>
    ensures { Gives (λ x. (x.0, x.1.now)) result (arg_at enums.now room kind.now bytes.now) }
{
    if room == 0 {
        return leaf_of(alloc, kind, bytes);
    }
    holder_of(alloc, enums, room - 1, kind, bytes)
}

#[cycle(args)]
fn holder_of<'a>(
    alloc: Global,
    enums: &[EnumSize],
    room: u32,
    kind: &ParamKind,
    bytes: &'a [u8],
) -> Result<(Arg, &'a [u8]), Unread>
    ensures { Gives (λ x. (x.0, x.1.now)) result (arg_by enums.now room (arg_at enums.now room) (out-ParamKind kind.now) bytes.now) }
{
    match kind {
        ParamKind::List(inner) => list_of(alloc, enums, room, inner.get(), bytes),
        ParamKind::Boxed => boxed_of(alloc, enums, room, bytes),
        _ => leaf_of(alloc, kind, bytes),
    }
}

// A value with its kind.
#[cycle(args)]
fn boxed_of<'a>(
    alloc: Global,
    enums: &[EnumSize],
    room: u32,
    bytes: &'a [u8],
) -> Result<(Arg, &'a [u8]), Unread>
    ensures { Gives (λ x. (x.0, x.1.now)) result (boxed_at enums.now room (arg_at enums.now room) bytes.now) }
{
    let (kind, rest) = kind_of(alloc, enums, room, bytes)?;
    let (value, rest) = arg_of(alloc, enums, room, &kind, rest)?;
    let value = Boxed::new(alloc, value)?;
    Ok((Arg::Boxed(kind, value), rest))
}

// The count of a vector's elements, and these, or null.
#[cycle(args)]
fn list_of<'a>(
    alloc: Global,
    enums: &[EnumSize],
    room: u32,
    kind: &ParamKind,
    bytes: &'a [u8],
) -> Result<(Arg, &'a [u8]), Unread>
    ensures { Gives (λ x. (x.0, x.1.now)) result (list_at (arg_at enums.now room kind.now) bytes.now) }
{
    let (count, rest) = sized_of(Width::Four, bytes)?;
    if count == 0xffff_ffff {
        return Ok((Arg::List(None), rest));
    }
    let (args, rest) = args_of(alloc, enums, room, kind, count, rest)?;
    Ok((Arg::List(Some(args)), rest))
}

// So many arguments, one after another.
#[cycle(args)]
fn args_of<'a>(
    alloc: Global,
    enums: &[EnumSize],
    room: u32,
    kind: &ParamKind,
    count: u64,
    bytes: &'a [u8],
) -> Result<(Seq<Arg>, &'a [u8]), Unread>
    ensures { Gives (λ x. (x.0, x.1.now)) result (args_at (arg_at enums.now room kind.now) count bytes.now) }
{
    let mut args = Seq::new(alloc);
    let mut rest = bytes;
    for _ in 0..count {
        let (one, after) = arg_of(alloc, enums, room, kind, rest)?;
        args.push(one)?;
        rest = after;
    }
    Ok((args, rest))
}

// An argument of a kind that opens no construct.
fn leaf_of<'a>(alloc: Global, kind: &ParamKind, bytes: &'a [u8]) -> Result<(Arg, &'a [u8]), Unread>
    ensures { Gives (λ x. (x.0, x.1.now)) result (leaf_arg_by (out-ParamKind kind.now) bytes.now) }
{
    match kind {
        ParamKind::Prim(element) => match width_of_element(*element) {
            Some(width) => number_of(width, bytes),
            None => Err(Unread::Bad { left: bytes.len() }),
        },
        ParamKind::Text => {
            let (text, rest) = text_or_null_of(alloc, bytes)?;
            Ok((Arg::Text(text), rest))
        }
        ParamKind::Typ => {
            let (name, rest) = text_or_null_of(alloc, bytes)?;
            Ok((Arg::Typ(name), rest))
        }
        ParamKind::Enum { size, .. } => number_of(width_of_enum(*size), bytes),
        ParamKind::Boxed => Err(Unread::Bad { left: bytes.len() }),
        ParamKind::List(_) => Err(Unread::Bad { left: bytes.len() }),
    }
}

fn number_of(width: Width, bytes: &[u8]) -> Result<(Arg, &[u8]), Unread>
    ensures { Gives (λ x. (x.0, x.1.now)) result (number_at width bytes.now) }
{
    let (n, rest) = sized_of(width, bytes)?;
    Ok((Arg::Number(n), rest))
}
