ghost use Rattle.std.specs.Prelude.{◌≡◌};
ghost use Rattle.attr_blobs.specs.Values.{width_of_element, width_of_enum, enum_kind_at, leaf_kind_by, kind_by, kind_at};
ghost use Rattle.attr_blobs.specs.Answers.{Gives};

use crate::enums::size_of_enum;
use crate::error::Unread;
use crate::kind::ParamKind;
use crate::text::{Width, text_of};
use crate::value::EnumSize;
use il_base::Boxed;
use std::alloc::Global;

/// How many bytes a number of an element type takes (II.23.1.16). None for an element type that has no number.
pub fn width_of_element(element: u8) -> Option<Width>
    ensures { result ≡ width_of_element element }
{
    match element {
        0x02 | 0x04 | 0x05 => Some(Width::One),
        0x03 | 0x06 | 0x07 => Some(Width::Two),
        0x08 | 0x09 | 0x0c => Some(Width::Four),
        0x0a | 0x0b | 0x0d => Some(Width::Eight),
        _ => None,
    }
}

/// How many bytes the values of an enum take whose size is said to be this.
pub fn width_of_enum(size: u8) -> Width
    ensures { result ≡ width_of_enum size }
{
    match size {
        1 => Width::One,
        2 => Width::Two,
        8 => Width::Eight,
        _ => Width::Four,
    }
}

/// The kind in front (II.23.3, FieldOrPropType), where at most `room` constructs may open, and the bytes after it.
#[cycle(kinds)]
#[tactic(auto, unfolding(crate::specs::Values::kind_at))]
pub fn kind_of<'a>(
    alloc: Global,
    enums: &[EnumSize],
    room: u32,
    bytes: &'a [u8],
) -> Result<(ParamKind, &'a [u8]), Unread>
    ensures { Gives (λ x. (x.0, x.1.now)) result (kind_at enums.now room bytes.now) }
{
    let [first, rest @ ..] = bytes else {
        return Err(Unread::Bad { left: 0 });
    };
    if room == 0 {
        return leaf_of(alloc, enums, *first, rest);
    }
    kind_behind(alloc, enums, room - 1, *first, rest)
}

// The kind whose first byte stands in front of `bytes`.
#[cycle(kinds)]
fn kind_behind<'a>(
    alloc: Global,
    enums: &[EnumSize],
    room: u32,
    first: u8,
    bytes: &'a [u8],
) -> Result<(ParamKind, &'a [u8]), Unread>
    ensures { Gives (λ x. (x.0, x.1.now)) result (kind_by enums.now (kind_at enums.now room) first bytes.now) }
{
    match first {
        0x1d => {
            let (inner, rest) = kind_of(alloc, enums, room, bytes)?;
            Ok((ParamKind::List(Boxed::new(alloc, inner)?), rest))
        }
        0x51 => Ok((ParamKind::Boxed, bytes)),
        _ => leaf_of(alloc, enums, first, bytes),
    }
}

// A kind that opens no construct, whose first byte stands in front of `bytes`.
fn leaf_of<'a>(
    alloc: Global,
    enums: &[EnumSize],
    first: u8,
    bytes: &'a [u8],
) -> Result<(ParamKind, &'a [u8]), Unread>
    ensures { Gives (λ x. (x.0, x.1.now)) result (leaf_kind_by enums.now first bytes.now) }
{
    match first {
        0x0e => Ok((ParamKind::Text, bytes)),
        0x50 => Ok((ParamKind::Typ, bytes)),
        0x55 => enum_of(alloc, enums, bytes),
        _ => match width_of_element(first) {
            Some(_) => Ok((ParamKind::Prim(first), bytes)),
            None => Err(Unread::Bad {
                left: bytes.len() + 1,
            }),
        },
    }
}

fn enum_of<'a>(
    alloc: Global,
    enums: &[EnumSize],
    bytes: &'a [u8],
) -> Result<(ParamKind, &'a [u8]), Unread>
    ensures { Gives (λ x. (x.0, x.1.now)) result (enum_kind_at enums.now bytes.now) }
{
    let (name, rest) = text_of(alloc, bytes)?;
    let size = size_of_enum(alloc, enums, name.as_slice())?;
    Ok((ParamKind::Enum { name, size }, rest))
}
