ghost use Rattle.std.specs.Prelude.{◌≡◌};
ghost use Rattle.il_base.specs.blob_grammar.Reading.{type_at, types_at, parts_at, generic_at, method_at, property_at, field_at, counted_at};
ghost use Rattle.sig_blobs.specs.Answers.{Gives};

use crate::error::{MALFORMED, Unread};
use crate::numbers::number_of;
use crate::types::{LEVELS, type_of, types_of};
use il_base::{MethodSig, Seq, Sig};
use std::alloc::Global;

/// A method's signature in front (II.23.2.1 to II.23.2.3).
#[tactic(auto, unfolding(il_base::specs::blob_grammar::Reading::method_at))]
pub fn method_of(alloc: Global, bytes: &[u8]) -> Result<(MethodSig, &[u8]), Unread>
    ensures { Gives (λ x. (x.0, x.1.now)) result (method_at bytes.now) }
{
    match bytes {
        [] => Err(Unread::Bad {
            left: 0,
            what: MALFORMED,
        }),
        [0x00, rest @ ..] => parts_of(alloc, false, 0, rest),
        [0x20, rest @ ..] => parts_of(alloc, true, 0, rest),
        [0x10, rest @ ..] => generic_of(alloc, false, rest),
        [0x30, rest @ ..] => generic_of(alloc, true, rest),
        [_, ..] => Err(Unread::Bad {
            left: bytes.len(),
            what: MALFORMED,
        }),
    }
}

/// A property's signature in front (II.23.2.5).
#[tactic(auto, unfolding(il_base::specs::blob_grammar::Reading::property_at))]
pub fn property_of(alloc: Global, bytes: &[u8]) -> Result<(MethodSig, &[u8]), Unread>
    ensures { Gives (λ x. (x.0, x.1.now)) result (property_at bytes.now) }
{
    match bytes {
        [] => Err(Unread::Bad {
            left: 0,
            what: MALFORMED,
        }),
        [0x08, rest @ ..] => parts_of(alloc, false, 0, rest),
        [0x28, rest @ ..] => parts_of(alloc, true, 0, rest),
        [_, ..] => Err(Unread::Bad {
            left: bytes.len(),
            what: MALFORMED,
        }),
    }
}

/// A field's signature in front (II.23.2.4).
#[tactic(auto, unfolding(il_base::specs::blob_grammar::Reading::field_at))]
pub fn field_of(alloc: Global, bytes: &[u8]) -> Result<(Sig, &[u8]), Unread>
    ensures { Gives (λ x. (x.0, x.1.now)) result (field_at bytes.now) }
{
    match bytes {
        [] => Err(Unread::Bad {
            left: 0,
            what: MALFORMED,
        }),
        [0x06, rest @ ..] => type_of(alloc, LEVELS, rest),
        [_, ..] => Err(Unread::Bad {
            left: bytes.len(),
            what: MALFORMED,
        }),
    }
}

/// Types in front, after a leading byte and their count (II.23.2.6, II.23.2.15).
#[tactic(auto, unfolding(il_base::specs::blob_grammar::Reading::counted_at))]
pub fn counted_of(alloc: Global, lead: u8, bytes: &[u8]) -> Result<(Seq<Sig>, &[u8]), Unread>
    ensures { Gives (λ x. (x.0, x.1.now)) result (counted_at lead bytes.now) }
{
    match bytes {
        [] => Err(Unread::Bad {
            left: 0,
            what: MALFORMED,
        }),
        [first, rest @ ..] if *first == lead => {
            let (count, rest) = number_of(rest)?;
            types_of(alloc, LEVELS, count, rest)
        }
        [_, ..] => Err(Unread::Bad {
            left: bytes.len(),
            what: MALFORMED,
        }),
    }
}

/// The count of generic parameters, and what follows it.
fn generic_of(alloc: Global, this: bool, bytes: &[u8]) -> Result<(MethodSig, &[u8]), Unread>
    ensures { Gives (λ x. (x.0, x.1.now)) result (generic_at this bytes.now) }
{
    let (count, rest) = number_of(bytes)?;
    parts_of(alloc, this, count, rest)
}

/// The count of parameters, the return type and the parameters' types.
#[tactic(auto, unfolding(il_base::specs::blob_grammar::Reading::parts_at))]
fn parts_of(
    alloc: Global,
    this: bool,
    generic: u32,
    bytes: &[u8],
) -> Result<(MethodSig, &[u8]), Unread>
    ensures { Gives (λ x. (x.0, x.1.now)) result (parts_at this generic bytes.now) }
{
    let (count, rest) = number_of(bytes)?;
    let (ret, rest) = type_of(alloc, LEVELS, rest)?;
    let (params, rest) = types_of(alloc, LEVELS, count, rest)?;
    Ok((
        MethodSig {
            this,
            generic,
            ret,
            params,
        },
        rest,
    ))
}
