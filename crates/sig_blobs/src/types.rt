ghost use Rattle.std.specs.Prelude.{◌≡◌};
ghost use Rattle.il_base.specs.blob_grammar.Reading.{type_at, types_at, type_by, leaf_by, modified_at, instance_at};
ghost use Rattle.sig_blobs.specs.Answers.{Gives};

use crate::error::{FLOAT, MALFORMED, Unread};
use crate::numbers::{class_of, number_of, token_of};
use il_base::blob_grammar::Element;
use il_base::{Boxed, Seq, Sig};
use std::alloc::Global;

/// The most constructs that hold a type and stand open at one place.
pub const LEVELS: u32 = 64;

/// The type in front (II.23.2.12), where at most `room` constructs that hold a type may open.
#[cycle(types)]
#[tactic(auto, unfolding(il_base::specs::blob_grammar::Reading::type_at))]
pub fn type_of(alloc: Global, room: u32, bytes: &[u8]) -> Result<(Sig, &[u8]), Unread>
    ensures { Gives (λ x. (x.0, x.1.now)) result (type_at room bytes.now) }
{
    let [first, rest @ ..] = bytes else {
        return Err(Unread::Bad {
            left: 0,
            what: MALFORMED,
        });
    };
    let element = Element::of(*first);
    if room == 0 {
        return leaf_of(element, *first, rest);
    }
    type_behind(alloc, room - 1, element, *first, rest)
}

/// The type whose first byte stands in front of `bytes`.
#[cycle(types)]
fn type_behind(
    alloc: Global,
    room: u32,
    element: Element,
    first: u8,
    bytes: &[u8],
) -> Result<(Sig, &[u8]), Unread>
    ensures { Gives (λ x. (x.0, x.1.now)) result (type_by (type_at room) element first bytes.now) }
{
    match element {
        Element::Vector => {
            let (inner, rest) = type_of(alloc, room, bytes)?;
            Ok((Sig::Array(Boxed::new(alloc, inner)?), rest))
        }
        Element::ByRef => {
            let (inner, rest) = type_of(alloc, room, bytes)?;
            Ok((Sig::ByRef(Boxed::new(alloc, inner)?), rest))
        }
        Element::Pinned => {
            let (inner, rest) = type_of(alloc, room, bytes)?;
            Ok((Sig::Pinned(Boxed::new(alloc, inner)?), rest))
        }
        Element::Required => modified_of(alloc, room, true, bytes),
        Element::Optional => modified_of(alloc, room, false, bytes),
        Element::GenericInst => instance_of(alloc, room, bytes),
        _ => leaf_of(element, first, bytes),
    }
}

/// A custom modifier's token and the type that it modifies (II.23.2.7).
#[cycle(types)]
fn modified_of(
    alloc: Global,
    room: u32,
    required: bool,
    bytes: &[u8],
) -> Result<(Sig, &[u8]), Unread>
    ensures { Gives (λ x. (x.0, x.1.now)) result (modified_at (type_at room) required bytes.now) }
{
    let (token, rest) = token_of(bytes)?;
    let (inner, rest) = type_of(alloc, room, rest)?;
    let inner = Boxed::new(alloc, inner)?;
    Ok((
        Sig::Mod {
            required,
            token,
            inner,
        },
        rest,
    ))
}

/// A generic type's kind, token, argument count and arguments.
#[cycle(types)]
fn instance_of(alloc: Global, room: u32, bytes: &[u8]) -> Result<(Sig, &[u8]), Unread>
    ensures { Gives (λ x. (x.0, x.1.now)) result (instance_at (type_at room) bytes.now) }
{
    let (value, rest) = class_of(bytes)?;
    let (token, rest) = token_of(rest)?;
    let (count, rest) = number_of(rest)?;
    let (args, rest) = types_of(alloc, room, count, rest)?;
    Ok((Sig::Inst { value, token, args }, rest))
}

/// So many types, one after another.
#[cycle(types)]
pub fn types_of(
    alloc: Global,
    room: u32,
    count: u32,
    bytes: &[u8],
) -> Result<(Seq<Sig>, &[u8]), Unread>
    ensures { Gives (λ x. (x.0, x.1.now)) result (types_at (type_at room) count bytes.now) }
{
    let mut types = Seq::new(alloc);
    let mut rest = bytes;
    for _ in 0..count {
        let (one, after) = type_of(alloc, room, rest)?;
        types.push(one)?;
        rest = after;
    }
    Ok((types, rest))
}

/// A type that holds no other, whose first byte stands in front of `bytes`.
fn leaf_of(element: Element, first: u8, bytes: &[u8]) -> Result<(Sig, &[u8]), Unread>
    ensures { Gives (λ x. (x.0, x.1.now)) result (leaf_by element first bytes.now) }
{
    match element {
        Element::Primitive => Ok((Sig::Prim(first), bytes)),
        Element::ValueType => {
            let (token, rest) = token_of(bytes)?;
            Ok((Sig::Named { value: true, token }, rest))
        }
        Element::Class => {
            let (token, rest) = token_of(bytes)?;
            Ok((
                Sig::Named {
                    value: false,
                    token,
                },
                rest,
            ))
        }
        Element::Var => {
            let (n, rest) = number_of(bytes)?;
            Ok((Sig::Var(n), rest))
        }
        Element::MVar => {
            let (n, rest) = number_of(bytes)?;
            Ok((Sig::MVar(n), rest))
        }
        Element::Float => Err(Unread::Bad {
            left: bytes.len() + 1,
            what: FLOAT,
        }),
        _ => Err(Unread::Bad {
            left: bytes.len() + 1,
            what: MALFORMED,
        }),
    }
}
