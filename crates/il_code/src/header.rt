ghost use Rattle.std.specs.Prelude.{◌≡◌, ◌+◌, ◌≤◌, ◌<◌, ◌^◌, length, IfOk};
ghost use Rattle.il_base.specs.body_grammar.Faults.{fault};
ghost use Rattle.il_base.specs.body_grammar.Bodies.{field_at, flags_of, fat_at, header_at, header_size};

use il_base::body_grammar::{BODY, Fault, Header};
use il_base::{u8_at, u16_at, u32_at};

/// The byte at `at`.
pub fn byte(bytes: &[u8], at: usize) -> Result<u8, Fault>
    requires { length bytes.now < 2 ^ 32 }
    ensures value { result ≡ field_at 1 bytes.now at }
    ensures within { IfOk result (λ _. at + 1 ≤ length bytes.now) }
{
    match u8_at(bytes, at) {
        Some(n) => Ok(n),
        None => Err(cut(bytes)),
    }
}

/// The number in the two bytes from `at`.
pub fn half(bytes: &[u8], at: usize) -> Result<u16, Fault>
    requires { length bytes.now < 2 ^ 32 }
    ensures value { result ≡ field_at 2 bytes.now at }
    ensures within { IfOk result (λ _. at + 2 ≤ length bytes.now) }
{
    match u16_at(bytes, at) {
        Some(n) => Ok(n),
        None => Err(cut(bytes)),
    }
}

/// The number in the four bytes from `at`.
pub fn word(bytes: &[u8], at: usize) -> Result<u32, Fault>
    requires { length bytes.now < 2 ^ 32 }
    ensures value { result ≡ field_at 4 bytes.now at }
    ensures within { IfOk result (λ _. at + 4 ≤ length bytes.now) }
{
    match u32_at(bytes, at) {
        Some(n) => Ok(n),
        None => Err(cut(bytes)),
    }
}

/// The fault of bytes that end before the body does.
fn cut(bytes: &[u8]) -> Fault
    requires { length bytes.now < 2 ^ 32 }
    ensures { result ≡ fault (length bytes.now) 11 }
{
    Fault {
        at: bytes.len() as u32,
        what: BODY,
    }
}

/// InitLocals and MoreSects of a fat header, by the low byte of its flags.
#[tactic(auto, unfolding(il_base::specs::body_grammar::Bodies::flags_of))]
fn flags(first: u8) -> Option<(bool, bool)>
    ensures { result ≡ flags_of first }
{
    match first {
        0x03 => Some((false, false)),
        0x0b => Some((false, true)),
        0x13 => Some((true, false)),
        0x1b => Some((true, true)),
        _ => None,
    }
}

/// A header of twelve bytes (II.25.4.3).
#[tactic(auto, unfolding(il_base::specs::body_grammar::Bodies::fat_at))]
fn fat_header(first: u8, bytes: &[u8]) -> Result<Header, Fault>
    requires { length bytes.now < 2 ^ 32 }
    ensures exact { result ≡ fat_at first bytes.now }
    ensures within { IfOk result (λ h. header_size h.tiny ≤ length bytes.now) }
{
    let Some((init, sects)) = flags(first) else {
        return Err(Fault { at: 0, what: BODY });
    };
    let high = byte(bytes, 1)?;
    if high != 0x30 {
        return Err(Fault { at: 1, what: BODY });
    }
    let max_stack = half(bytes, 2)?;
    let size = word(bytes, 4)?;
    let locals = word(bytes, 8)?;
    Ok(Header {
        tiny: false,
        init,
        sects,
        max_stack,
        size,
        locals,
    })
}

/// The header at the front of a body (II.25.4.1), or the first fault in it.
#[tactic(auto, unfolding(il_base::specs::body_grammar::Bodies::header_at))]
pub fn read_header(bytes: &[u8]) -> Result<Header, Fault>
    requires { length bytes.now < 2 ^ 32 }
    ensures exact { result ≡ header_at bytes.now }
    ensures within { IfOk result (λ h. header_size h.tiny ≤ length bytes.now) }
{
    let first = byte(bytes, 0)?;
    if first % 4 != 2 {
        return fat_header(first, bytes);
    }
    Ok(Header {
        tiny: true,
        init: false,
        sects: false,
        max_stack: 8,
        size: u32::from(first / 4),
        locals: 0,
    })
}
