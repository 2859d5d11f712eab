ghost use Rattle.std.specs.Prelude.{◌≡◌};
ghost use Rattle.il_base.specs.blob_grammar.Reading.{number_at, token_at, coded_at, class_at};
ghost use Rattle.sig_blobs.specs.Answers.{Gives};

use crate::error::{MALFORMED, Unread};
use il_base::compressed_number;

/// The compressed number in front (II.23.2), and the bytes after it.
#[tactic(auto, unfolding(il_base::specs::blob_grammar::Reading::number_at))]
pub fn number_of(bytes: &[u8]) -> Result<(u32, &[u8]), Unread>
    ensures { Gives (λ x. (x.0, x.1.now)) result (number_at bytes.now) }
{
    if let Some((n, size)) = compressed_number(bytes) {
        return Ok((n, &bytes[size..]));
    }
    let left = match bytes {
        [first, ..] if *first >= 0xe0 => bytes.len(),
        _ => 0,
    };
    Err(Unread::Bad {
        left,
        what: MALFORMED,
    })
}

/// The coded token in front (II.23.2.8), and the bytes after it.
#[tactic(auto, unfolding(il_base::specs::blob_grammar::Reading::token_at))]
pub fn token_of(bytes: &[u8]) -> Result<(u32, &[u8]), Unread>
    ensures { Gives (λ x. (x.0, x.1.now)) result (token_at bytes.now) }
{
    match bytes {
        [] => Err(Unread::Bad {
            left: 0,
            what: MALFORMED,
        }),
        [0..=0xc3, ..] => coded_of(bytes),
        [_, ..] => Err(Unread::Bad {
            left: bytes.len(),
            what: MALFORMED,
        }),
    }
}

/// The token of the number in front, by its tag.
fn coded_of(bytes: &[u8]) -> Result<(u32, &[u8]), Unread>
    ensures { Gives (λ x. (x.0, x.1.now)) result (coded_at bytes.now) }
{
    let (n, rest) = number_of(bytes)?;
    match n % 4 {
        0 => Ok((0x0200_0000 + n / 4, rest)),
        1 => Ok((0x0100_0000 + n / 4, rest)),
        2 => Ok((0x1b00_0000 + n / 4, rest)),
        _ => Err(Unread::Bad {
            left: rest.len() + 1,
            what: MALFORMED,
        }),
    }
}

/// Whether VALUETYPE stands in front, or CLASS.
pub fn class_of(bytes: &[u8]) -> Result<(bool, &[u8]), Unread>
    ensures { Gives (λ x. (x.0, x.1.now)) result (class_at bytes.now) }
{
    match bytes {
        [] => Err(Unread::Bad {
            left: 0,
            what: MALFORMED,
        }),
        [0x11, rest @ ..] => Ok((true, rest)),
        [0x12, rest @ ..] => Ok((false, rest)),
        [_, ..] => Err(Unread::Bad {
            left: bytes.len(),
            what: MALFORMED,
        }),
    }
}
