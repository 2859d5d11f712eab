ghost use Rattle.std.specs.Prelude.{◌≡◌, ◌≤◌, length, drop, IfOk, OnOk, Some};
ghost use Rattle.attr_blobs.specs.Texts.{bytes_of, sized_at, length_at, behind_first, within_text, expected, behind_text, text_at, text_or_null_at, between, expect};
ghost use Rattle.attr_blobs.specs.Answers.{Gives};

use crate::error::Unread;
use il_base::{Text, compressed_number, u8_at, u16_at, u32_at, u64_at};
use std::alloc::Global;

/// How many bytes a number takes.
#[derive(Clone, Copy, Debug, PartialEq, Eq)]
pub enum Width {
    One,
    Two,
    Four,
    Eight,
}

/// What is expected after a byte of UTF-8.
#[derive(Clone, Copy)]
pub struct Expect {
    /// How many more bytes the character has.
    pub more: u32,
    /// The least and the greatest next byte.
    pub low: u8,
    pub high: u8,
}

pub const CUT: Unread = Unread::Bad { left: 0 };

/// The number in front, the lowest byte first, and the bytes after it.
#[tactic(auto, unfolding(crate::specs::Texts::sized_at))]
pub fn sized_of(width: Width, bytes: &[u8]) -> Result<(u64, &[u8]), Unread>
    ensures { Gives (λ x. (x.0, x.1.now)) result (sized_at (bytes_of width) bytes.now) }
{
    match width {
        Width::One => match u8_at(bytes, 0) {
            Some(n) => Ok((u64::from(n), &bytes[1..])),
            None => Err(CUT),
        },
        Width::Two => match u16_at(bytes, 0) {
            Some(n) => Ok((u64::from(n), &bytes[2..])),
            None => Err(CUT),
        },
        Width::Four => match u32_at(bytes, 0) {
            Some(n) => Ok((u64::from(n), &bytes[4..])),
            None => Err(CUT),
        },
        Width::Eight => match u64_at(bytes, 0) {
            Some(n) => Ok((n, &bytes[8..])),
            None => Err(CUT),
        },
    }
}

/// The compressed number in front (II.23.2), and the bytes after it.
#[tactic(auto, unfolding(crate::specs::Texts::length_at))]
pub fn length_of(bytes: &[u8]) -> Result<(u32, &[u8]), Unread>
    ensures { Gives (λ x. (x.0, x.1.now)) result (length_at bytes.now) }
{
    if let Some((n, size)) = compressed_number(bytes) {
        return Ok((n, &bytes[size..]));
    }
    let left = match bytes {
        [first, ..] if *first >= 0xe0 => bytes.len(),
        _ => 0,
    };
    Err(Unread::Bad { left })
}

fn some_expect(more: u32, low: u8, high: u8) -> Option<Expect>
    ensures { result ≡ Some (expect more low high) }
{
    Some(Expect { more, low, high })
}

fn behind_first(byte: u8) -> Option<Expect>
    ensures { result ≡ behind_first byte }
{
    match byte {
        0..=0x7f => some_expect(0, 0x80, 0xbf),
        0xc2..=0xdf => some_expect(1, 0x80, 0xbf),
        0xe0 => some_expect(2, 0xa0, 0xbf),
        0xed => some_expect(2, 0x80, 0x9f),
        0xe1..=0xef => some_expect(2, 0x80, 0xbf),
        0xf0 => some_expect(3, 0x90, 0xbf),
        0xf1..=0xf3 => some_expect(3, 0x80, 0xbf),
        0xf4 => some_expect(3, 0x80, 0x8f),
        _ => None,
    }
}

// A character's bytes lie within the text.
fn within_text(left: u32, next: Option<Expect>) -> Option<Expect>
    ensures { result ≡ within_text left next }
{
    match next {
        Some(next) if next.more <= left => Some(next),
        _ => None,
    }
}

// What is expected after one more byte, where the text has `left` bytes after it.
fn expected(now: Expect, left: u32, byte: u8) -> Option<Expect>
    ensures { result ≡ expected now left byte }
{
    if now.more == 0 {
        return within_text(left, behind_first(byte));
    }
    if now.low <= byte && byte <= now.high {
        return some_expect(now.more - 1, 0x80, 0xbf);
    }
    None
}

// The bytes after a text of `size` bytes.
fn behind_text(size: u32, bytes: &[u8]) -> Result<&[u8], Unread>
    ensures gives { Gives (λ r. r.now) result (behind_text size (expect 0 128 191) bytes.now) }
    ensures rest { IfOk result (λ r. r.now ≡ drop size bytes.now) }
    ensures within { OnOk result (size ≤ length bytes.now) }
{
    let mut rest = bytes;
    let mut now = Expect {
        more: 0,
        low: 0x80,
        high: 0xbf,
    };
    for i in 0..size {
        let [first, behind @ ..] = rest else {
            return Err(CUT);
        };
        match expected(now, size - i - 1, *first) {
            Some(next) => now = next,
            None => return Err(Unread::Bad { left: rest.len() }),
        }
        rest = behind;
    }
    Ok(rest)
}

/// The text in front: its length in bytes, and its bytes in UTF-8. Then the bytes after it.
#[tactic(auto, unfolding(crate::specs::Texts::text_at))]
pub fn text_of(alloc: Global, bytes: &[u8]) -> Result<(Text, &[u8]), Unread>
    ensures { Gives (λ x. (x.0, x.1.now)) result (text_at bytes.now) }
{
    let (size, text) = length_of(bytes)?;
    let rest = behind_text(size, text)?;
    let text = Text::from_slice(alloc, &text[..size as usize])?;
    Ok((text, rest))
}

/// The text in front, or None for null, and the bytes after it.
#[tactic(auto, unfolding(crate::specs::Texts::text_or_null_at))]
pub fn text_or_null_of(alloc: Global, bytes: &[u8]) -> Result<(Option<Text>, &[u8]), Unread>
    ensures { Gives (λ x. (x.0, x.1.now)) result (text_or_null_at bytes.now) }
{
    match bytes {
        [] => Err(CUT),
        [0xff, rest @ ..] => Ok((None, rest)),
        [_, ..] => {
            let (text, rest) = text_of(alloc, bytes)?;
            Ok((Some(text), rest))
        }
    }
}
