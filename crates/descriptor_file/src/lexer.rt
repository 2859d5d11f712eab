ghost use Rattle.std.specs.Prelude.{◌≡◌, ◌≤◌, ◌<◌, ◌+◌, ◌^◌, length, codes, IfOk, IfSome};
ghost use Rattle.std.specs.Option.{option_map};
ghost use Rattle.std.specs.Str.{is_utf8};
ghost use Rattle.descriptor_file.specs.Tokens.{is_space, is_name_byte, name_length, space_length, element_named, attribute_named, suits, named_after, place_of, comment_after, content_token, equals, with_value, attribute_token, tag_token};

use crate::token::{Attribute, Element, Piece, Token};
use crate::values::{after, is_text, quoted, text_of};
use il_base::NoMemory;
use std::alloc::Global;

/// Space, tab, line feed or carriage return.
pub(crate) fn is_space(byte: u8) -> bool
    ensures { result ≡ is_space byte }
{
    byte == b' ' || byte == b'\t' || byte == b'\n' || byte == b'\r'
}

/// Whether a name can have the byte.
fn is_name_byte(byte: u8) -> bool
    ensures { result ≡ is_name_byte byte }
{
    (b'a' <= byte && byte <= b'z')
        || (b'A' <= byte && byte <= b'Z')
        || (b'0' <= byte && byte <= b'9')
        || byte == b'-'
        || byte == b'.'
        || byte == b'_'
        || byte == b':'
        || 128 <= byte
}

/// How many bytes the name at the front has.
fn name_length(bytes: &[u8]) -> usize
    ensures value { result ≡ name_length bytes.now }
    ensures within { result ≤ length bytes.now }
{
    for (i, b) in bytes.iter().enumerate() {
        if !is_name_byte(*b) {
            return i;
        }
    }
    bytes.len()
}

/// How much whitespace stands at the front.
fn space_length(bytes: &[u8]) -> usize
    ensures value { result ≡ space_length bytes.now }
    ensures within { result ≤ length bytes.now }
{
    for (i, b) in bytes.iter().enumerate() {
        if !is_space(*b) {
            return i;
        }
    }
    bytes.len()
}

#[tactic(auto, unfolding(crate::specs::Tokens::element_named))]
fn element_named(name: &[u8]) -> Option<Element>
    ensures { result ≡ element_named name.now }
{
    if name == b"linker".as_slice() {
        Some(Element::Linker)
    } else if name == b"assembly".as_slice() {
        Some(Element::Assembly)
    } else if name == b"type".as_slice() {
        Some(Element::Type)
    } else if name == b"method".as_slice() {
        Some(Element::Method)
    } else if name == b"field".as_slice() {
        Some(Element::Field)
    } else if name == b"property".as_slice() {
        Some(Element::Property)
    } else if name == b"event".as_slice() {
        Some(Element::Event)
    } else {
        None
    }
}

#[tactic(auto, unfolding(crate::specs::Tokens::attribute_named))]
fn attribute_named(name: &[u8]) -> Option<Attribute>
    ensures { result ≡ attribute_named name.now }
{
    if name == b"fullname".as_slice() {
        Some(Attribute::FullName)
    } else if name == b"preserve".as_slice() {
        Some(Attribute::Preserve)
    } else if name == b"required".as_slice() {
        Some(Attribute::Required)
    } else if name == b"name".as_slice() {
        Some(Attribute::Name)
    } else if name == b"signature".as_slice() {
        Some(Attribute::Signature)
    } else {
        None
    }
}

/// Whether an attribute can have this text.
#[tactic(auto, unfolding(crate::specs::Tokens::suits))]
fn suits(attribute: Attribute, text: &[u8]) -> bool
    ensures { result ≡ suits attribute text.now }
{
    match attribute {
        Attribute::Preserve => {
            text == b"all".as_slice()
                || text == b"fields".as_slice()
                || text == b"methods".as_slice()
                || text == b"nothing".as_slice()
        }
        Attribute::Required => text == b"true".as_slice() || text == b"false".as_slice(),
        Attribute::FullName => true,
        Attribute::Name => true,
        Attribute::Signature => true,
    }
}

/// The name of an element after the first `n` bytes, and where it ends.
#[tactic(auto, unfolding(crate::specs::Tokens::named_after))]
fn named_after(n: usize, bytes: &[u8]) -> Option<(Element, usize)>
    requires { n ≤ length bytes.now }
    ensures value { result ≡ named_after n bytes.now }
    ensures within { IfSome result (λ x. (n ≤ x.1) × (x.1 ≤ length bytes.now)) }
{
    let rest = &bytes[n..];
    let size = name_length(rest);
    match element_named(&rest[..size]) {
        Some(element) => Some((element, n + size)),
        None => None,
    }
}

/// The first place of a text.
pub(crate) fn place_of(text: &[u8], bytes: &[u8]) -> Option<usize>
    ensures value { result ≡ place_of text.now bytes.now }
    ensures within { IfSome result (λ n. n + length text.now ≤ length bytes.now) }
{
    for i in 0..bytes.len() {
        if after(bytes, i).starts_with(text) {
            return Some(i);
        }
    }
    None
}

/// How many bytes a comment takes after its `<!--`.
#[tactic(auto, unfolding(crate::specs::Tokens::comment_after))]
fn comment_after(bytes: &[u8]) -> Option<usize>
    ensures value { result ≡ comment_after bytes.now }
    ensures within { IfSome result (λ n. n ≤ length bytes.now) }
{
    match place_of(b"--", bytes) {
        None => None,
        Some(n) => {
            if bytes[n..].starts_with(b"-->") && is_text(&bytes[..n]) {
                Some(n + 3)
            } else {
                None
            }
        }
    }
}

/// The token at the front in an element's content, or outside of all elements.
#[tactic(auto, unfolding(crate::specs::Tokens::content_token))]
pub(crate) fn content_token(bytes: &[u8]) -> Option<Piece>
    ensures value { result ≡ content_token bytes.now }
    ensures within { IfSome result (λ p. (0 < p.size) × (p.size ≤ length bytes.now)) }
{
    if bytes.starts_with(b"<!--") {
        match comment_after(&bytes[4..]) {
            Some(n) => Some(Piece {
                token: Token::Comment,
                size: n + 4,
            }),
            None => None,
        }
    } else if bytes.starts_with(b"</") {
        match named_after(2, bytes) {
            Some((element, size)) => Some(Piece {
                token: Token::Stop(element),
                size,
            }),
            None => None,
        }
    } else if bytes.starts_with(b"<") {
        match named_after(1, bytes) {
            Some((element, size)) => Some(Piece {
                token: Token::Start(element),
                size,
            }),
            None => None,
        }
    } else {
        None
    }
}

/// `=` with maybe whitespace around it: how many bytes.
#[tactic(auto, unfolding(crate::specs::Tokens::equals))]
fn equals(bytes: &[u8]) -> Option<usize>
    ensures value { result ≡ equals bytes.now }
    ensures within { IfSome result (λ n. n ≤ length bytes.now) }
{
    let n = space_length(bytes);
    if bytes[n..].starts_with(b"=") {
        Some(n + 1 + space_length(&bytes[n + 1..]))
    } else {
        None
    }
}

/// The attribute whose value has the bytes `raw` between its quotes; `n` bytes stand before the value.
#[tactic(auto, unfolding(crate::specs::Tokens::with_value))]
fn with_value(
    alloc: Global,
    attribute: Attribute,
    n: usize,
    raw: &[u8],
) -> Result<Option<Piece>, NoMemory>
    requires { n + length raw.now + 2 < 2 ^ 64 }
    ensures value { IfOk result (λ p. p ≡ with_value attribute n raw.now) }
    ensures size { IfOk result (λ p. IfSome p (λ p. p.size ≡ n + length raw.now + 2)) }
{
    match text_of(alloc, raw)? {
        None => Ok(None),
        Some(text) => {
            if !suits(attribute, text.as_slice()) {
                return Ok(None);
            }
            Ok(Some(Piece {
                token: Token::Value(attribute, text),
                size: n + raw.len() + 2,
            }))
        }
    }
}

/// The attribute at the front.
#[tactic(auto, unfolding(crate::specs::Tokens::attribute_token))]
fn attribute_token(alloc: Global, bytes: &[u8]) -> Result<Option<Piece>, NoMemory>
    ensures value { IfOk result (λ p. p ≡ attribute_token bytes.now) }
    ensures within { IfOk result (λ p. IfSome p (λ p. (0 < p.size) × (p.size ≤ length bytes.now))) }
{
    let n = name_length(bytes);
    let Some(attribute) = attribute_named(&bytes[..n]) else {
        return Ok(None);
    };
    let Some(e) = equals(&bytes[n..]) else {
        return Ok(None);
    };
    let Some(raw) = quoted(&bytes[n + e..]) else {
        return Ok(None);
    };
    let piece = with_value(alloc, attribute, n + e, raw)?;
    Ok(piece)
}

/// The token at the front in a tag; `spaced` says whether whitespace stands before it.
#[tactic(auto, unfolding(crate::specs::Tokens::tag_token))]
pub(crate) fn tag_token(
    alloc: Global,
    spaced: bool,
    bytes: &[u8],
) -> Result<Option<Piece>, NoMemory>
    ensures value { IfOk result (λ p. p ≡ tag_token spaced bytes.now) }
    ensures within { IfOk result (λ p. IfSome p (λ p. (0 < p.size) × (p.size ≤ length bytes.now))) }
{
    if bytes.starts_with(b"/>") {
        return Ok(Some(Piece {
            token: Token::EmptyEnd,
            size: 2,
        }));
    }
    if bytes.starts_with(b">") {
        return Ok(Some(Piece {
            token: Token::End,
            size: 1,
        }));
    }
    if !spaced {
        return Ok(None);
    }
    let piece = attribute_token(alloc, bytes)?;
    Ok(piece)
}
