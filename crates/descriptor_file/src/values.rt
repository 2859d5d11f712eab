ghost use Rattle.std.specs.Prelude.{◌≡◌, ◌≤◌, ◌<◌, ◌+◌, length, drop, codes, IfOk, IfSome};
ghost use Rattle.std.specs.Option.{option_map};
ghost use Rattle.std.specs.Str.{is_utf8};
ghost use Rattle.descriptor_file.specs.Values.{entity, unescaped, text_of, up_to, before_quote, quoted};

use il_base::{NoMemory, Seq, Text};
use std::alloc::Global;
use std::str::from_utf8;

/// Whether bytes are UTF-8.
#[tactic(auto, using(crate::proofs::Utf8::utf8))]
pub(crate) fn is_text(bytes: &[u8]) -> bool
    ensures { result ≡ is_utf8 bytes.now }
{
    match from_utf8(bytes) {
        Ok(_) => true,
        Err(_) => false,
    }
}

/// The bytes after the first `n`.
pub(crate) fn after(bytes: &[u8], n: usize) -> &[u8]
    requires { n ≤ length bytes.now }
    ensures { result.now ≡ drop n bytes.now }
{
    &bytes[n..]
}

/// The entity after a `&`: its character, and how many bytes it takes after the `&`.
#[tactic(auto, unfolding(crate::specs::Values::entity))]
fn entity(bytes: &[u8]) -> Option<(u8, usize)>
    ensures value { result ≡ entity bytes.now }
    ensures within { IfSome result (λ e. e.1 ≤ length bytes.now) }
{
    if bytes.starts_with(b"lt;") {
        Some((b'<', 3))
    } else if bytes.starts_with(b"gt;") {
        Some((b'>', 3))
    } else if bytes.starts_with(b"amp;") {
        Some((b'&', 4))
    } else if bytes.starts_with(b"quot;") {
        Some((b'"', 5))
    } else if bytes.starts_with(b"apos;") {
        Some((b'\'', 5))
    } else {
        None
    }
}

/// The text that escaped bytes stand for.
fn unescaped(alloc: Global, raw: &[u8]) -> Result<Option<Text>, NoMemory>
    ensures { IfOk result (λ text. text ≡ unescaped 0 raw.now) }
{
    let mut text = Seq::new(alloc);
    let mut rest = raw;
    while !rest.is_empty() {
        let byte = rest[0];
        let tail = after(rest, 1);
        if byte == b'<' {
            return Ok(None);
        }
        if byte != b'&' {
            text.push(byte)?;
            rest = tail;
            continue;
        }
        match entity(tail) {
            None => return Ok(None),
            Some((character, size)) => {
                text.push(character)?;
                rest = after(tail, size);
            }
        }
    }
    Ok(Some(text))
}

/// The text that the bytes between two quotes stand for; None where they aren't UTF-8, have a `<` or another entity.
#[tactic(auto, unfolding(crate::specs::Values::text_of))]
pub(crate) fn text_of(alloc: Global, raw: &[u8]) -> Result<Option<Text>, NoMemory>
    ensures { IfOk result (λ text. text ≡ text_of raw.now) }
{
    if !is_text(raw) {
        return Ok(None);
    }
    let text = unescaped(alloc, raw)?;
    Ok(text)
}

/// The place of the first such byte, or how many bytes there are.
pub(crate) fn up_to(byte: u8, bytes: &[u8]) -> usize
    ensures value { result ≡ up_to byte bytes.now }
    ensures within { result ≤ length bytes.now }
{
    for (i, b) in bytes.iter().enumerate() {
        if *b == byte {
            return i;
        }
    }
    bytes.len()
}

#[tactic(auto, unfolding(crate::specs::Values::before_quote))]
fn before_quote(quote: u8, bytes: &[u8]) -> Option<&[u8]>
    ensures value { option_map (λ b. b.now) result ≡ before_quote quote bytes.now }
    ensures within { IfSome result (λ raw. length raw.now < length bytes.now) }
{
    let n = up_to(quote, bytes);
    if n < bytes.len() {
        Some(&bytes[..n])
    } else {
        None
    }
}

/// The bytes between two quotes of one kind at the front.
#[tactic(auto, unfolding(crate::specs::Values::quoted))]
pub(crate) fn quoted(bytes: &[u8]) -> Option<&[u8]>
    ensures value { option_map (λ b. b.now) result ≡ quoted bytes.now }
    ensures within { IfSome result (λ raw. length raw.now + 2 ≤ length bytes.now) }
{
    match bytes {
        [] => None,
        [first, ..] => {
            if *first == b'"' || *first == b'\'' {
                before_quote(*first, &bytes[1..])
            } else {
                None
            }
        }
    }
}
