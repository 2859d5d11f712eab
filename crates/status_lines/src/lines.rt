//! The status lines.

ghost use Rattle.std.specs.Prelude.{◌≡◌, ◌<◌, ◌++◌, OnOk, IfOk, codes};
ghost use Rattle.std.specs.Fmt.{decimal, signed_decimal};
ghost use Rattle.status_lines.specs.Lines.{hex_digit, hex8, place_text, ended, what_text, why_text, outside_text, bad_text, descriptor_text, limit_text, threw_text, line_of};

use crate::status::Status;
use il_base::{BadAt, NoMemory, Place};
use std::alloc::Global;

fn hex_digit(n: u32) -> u8
    requires { n < 16 }
    ensures { result ≡ hex_digit n }
{
    if n < 10 {
        b'0' + n as u8
    } else {
        b'a' + (n as u8 - 10)
    }
}

#[tactic(auto, unfolding(crate::specs::Lines::hex8))]
fn hex8(n: u32) -> [u8; 8]
    ensures { result ≡ hex8 n }
{
    [
        hex_digit(n / 0x1000_0000 % 16),
        hex_digit(n / 0x100_0000 % 16),
        hex_digit(n / 0x10_0000 % 16),
        hex_digit(n / 0x1_0000 % 16),
        hex_digit(n / 0x1000 % 16),
        hex_digit(n / 0x100 % 16),
        hex_digit(n / 0x10 % 16),
        hex_digit(n % 16),
    ]
}

#[tactic(auto, unfolding(crate::specs::Lines::place_text))]
fn put_place(out: &mut Vec<u8>, asm: &[u8], place: Place) -> Result<(), NoMemory>
    ensures { OnOk result (out.new.items ≡ out.old.items ++ place_text asm.now place) }
{
    out.extend_from_slice(asm)?;
    out.push(b':')?;
    out.extend_from_slice(&hex8(place.token))?;
    out.push(b':')?;
    out.extend_from_slice(&hex8(place.offset))?;
    Ok(())
}

fn with_text(alloc: Global, label: &[u8], text: &[u8]) -> Result<Vec<u8>, NoMemory>
    ensures { IfOk result (λ line. line.items ≡ ended (label.now ++ text.now)) }
{
    let mut line = Vec::from_slice(alloc, label)?;
    line.extend_from_slice(text)?;
    line.push(b'\n')?;
    Ok(line)
}

fn with_place(alloc: Global, label: &[u8], asm: &[u8], place: Place) -> Result<Vec<u8>, NoMemory>
    ensures { IfOk result (λ line. line.items ≡ ended (label.now ++ place_text asm.now place)) }
{
    let mut line = Vec::from_slice(alloc, label)?;
    put_place(&mut line, asm, place)?;
    line.push(b'\n')?;
    Ok(line)
}

fn with_code(alloc: Global, code: i32) -> Result<Vec<u8>, NoMemory>
    ensures { IfOk result (λ line. line.items ≡ ended (codes "ended " ++ signed_decimal code)) }
{
    let text = code.to_string(alloc)?;
    with_text(alloc, b"ended ", text.as_bytes())
}

fn with_number(alloc: Global, label: &[u8], n: u64) -> Result<Vec<u8>, NoMemory>
    ensures { IfOk result (λ line. line.items ≡ ended (label.now ++ decimal n)) }
{
    let text = n.to_string(alloc)?;
    with_text(alloc, label, text.as_bytes())
}

/// The name of what is outside the profile (`il_base::outside`).
#[tactic(auto, unfolding(crate::specs::Lines::what_text))]
fn what_text(what: u8) -> &'static [u8]
    ensures { result.now ≡ what_text what }
{
    match what {
        1 => b"Float",
        2 => b"Instruction",
        3 => b"Platform",
        4 => b"Filter",
        5 => b"Signature",
        6 => b"Layout",
        7 => b"InterfaceBody",
        8 => b"GlobalMember",
        9 => b"ModuleInitializer",
        10 => b"IdentityReader",
        11 => b"Body",
        12 => b"Stack",
        13 => b"Attribute",
        14 => b"Variance",
        _ => b"FieldData",
    }
}

/// The name of what fails in a file.
#[tactic(auto, unfolding(crate::specs::Lines::why_text))]
fn why_text(why: u8) -> &'static [u8]
    ensures { result.now ≡ why_text why }
{
    match why {
        1 => b"NotPe",
        2 => b"NoCli",
        3 => b"NotIlOnly",
        4 => b"Native",
        5 => b"Truncated",
        6 => b"BadRva",
        7 => b"BadRoot",
        8 => b"BadStream",
        9 => b"BadHeap",
        10 => b"UnknownTable",
        11 => b"RowOutOfRange",
        12 => b"ListOrder",
        13 => b"SortOrder",
        14 => b"DuplicateAssembly",
        15 => b"CyclicTypes",
        16 => b"CyclicNesting",
        _ => b"DuplicateMember",
    }
}

fn bad_text(alloc: Global, word: &[u8], at: BadAt) -> Result<Vec<u8>, NoMemory>
    ensures { IfOk result (λ text. text.items ≡ bad_text word.now at) }
{
    let offset = at.offset.to_string(alloc)?;
    let mut text = Vec::from_slice(alloc, word)?;
    text.push(b' ')?;
    text.extend_from_slice(offset.as_bytes())?;
    text.push(b' ')?;
    text.extend_from_slice(why_text(at.why))?;
    Ok(text)
}

fn with_fault(alloc: Global, word: &[u8], at: BadAt) -> Result<Vec<u8>, NoMemory>
    ensures { IfOk result (λ line. line.items ≡ ended (codes "bad file " ++ bad_text word.now at)) }
{
    let text = bad_text(alloc, word, at)?;
    with_text(alloc, b"bad file ", &text)
}

fn outside_text(alloc: Global, asm: &[u8], place: Place, what: u8) -> Result<Vec<u8>, NoMemory>
    ensures { IfOk result (λ text. text.items ≡ outside_text asm.now place what) }
{
    let mut text = Vec::new(alloc);
    put_place(&mut text, asm, place)?;
    text.push(b' ')?;
    text.extend_from_slice(what_text(what))?;
    Ok(text)
}

fn with_form(alloc: Global, asm: &[u8], place: Place, what: u8) -> Result<Vec<u8>, NoMemory>
    ensures { IfOk result (λ line. line.items ≡ ended (codes "outside " ++ outside_text asm.now place what)) }
{
    let text = outside_text(alloc, asm, place, what)?;
    with_text(alloc, b"outside ", &text)
}

fn descriptor_text(alloc: Global, word: &[u8], offset: u32) -> Result<Vec<u8>, NoMemory>
    ensures { IfOk result (λ text. text.items ≡ descriptor_text word.now offset) }
{
    let digits = offset.to_string(alloc)?;
    let mut text = Vec::from_slice(alloc, word)?;
    text.push(b' ')?;
    text.extend_from_slice(digits.as_bytes())?;
    Ok(text)
}

fn with_descriptor(alloc: Global, word: &[u8], offset: u32) -> Result<Vec<u8>, NoMemory>
    ensures { IfOk result (λ line. line.items ≡ ended (codes "bad descriptor " ++ descriptor_text word.now offset)) }
{
    let text = descriptor_text(alloc, word, offset)?;
    with_text(alloc, b"bad descriptor ", &text)
}

fn limit_text(alloc: Global, which: u8, found: u64) -> Result<Vec<u8>, NoMemory>
    ensures { IfOk result (λ text. text.items ≡ limit_text which found) }
{
    let number = which.to_string(alloc)?;
    let reached = found.to_string(alloc)?;
    let mut text = Vec::from_slice(alloc, number.as_bytes())?;
    text.push(b' ')?;
    text.extend_from_slice(reached.as_bytes())?;
    Ok(text)
}

fn with_limit(alloc: Global, which: u8, found: u64) -> Result<Vec<u8>, NoMemory>
    ensures { IfOk result (λ line. line.items ≡ ended (codes "limit " ++ limit_text which found)) }
{
    let text = limit_text(alloc, which, found)?;
    with_text(alloc, b"limit ", &text)
}

fn threw_text(alloc: Global, kind: &[u8], message: &[u8]) -> Result<Vec<u8>, NoMemory>
    ensures { IfOk result (λ text. text.items ≡ threw_text kind.now message.now) }
{
    let mut text = Vec::from_slice(alloc, kind)?;
    text.extend_from_slice(b": ")?;
    text.extend_from_slice(message)?;
    Ok(text)
}

fn with_exception(alloc: Global, kind: &[u8], message: &[u8]) -> Result<Vec<u8>, NoMemory>
    ensures { IfOk result (λ line. line.items ≡ ended (codes "threw " ++ threw_text kind.now message.now)) }
{
    let text = threw_text(alloc, kind, message)?;
    with_text(alloc, b"threw ", &text)
}

/// The line of a status, with the name of the assembly that a place is in and the name of the file, or for a collision the text
/// of its two types.
pub(crate) fn line_of(
    alloc: Global,
    asm: &[u8],
    word: &[u8],
    status: &Status,
) -> Result<Vec<u8>, NoMemory>
    ensures { IfOk result (λ line. line.items ≡ line_of asm.now word.now status.now) }
{
    match status {
        Status::Done => Ok(Vec::from_slice(alloc, b"done\n")?),
        Status::Ended { code } => with_code(alloc, *code),
        Status::BadFile { file: _, at } => with_fault(alloc, word, *at),
        Status::Outside { place, what } => with_form(alloc, asm, *place, *what),
        Status::Unresolved { place } => with_place(alloc, b"unresolved ", asm, *place),
        Status::NotYet { .. } => with_text(alloc, b"not yet ", word),
        Status::Collision { .. } => with_text(alloc, b"collision ", word),
        Status::BadDescriptor { source: _, offset } => with_descriptor(alloc, word, *offset),
        Status::Limit { which, found } => with_limit(alloc, *which, *found),
        Status::BadWords { place } => with_number(alloc, b"bad words ", u64::from(*place)),
        Status::NoEntry { token } => with_text(alloc, b"no entry ", &hex8(*token)),
        Status::ReadFault => Ok(Vec::from_slice(alloc, b"read fault\n")?),
        Status::WriteFault => Ok(Vec::from_slice(alloc, b"write fault\n")?),
        Status::NoMemory => Ok(Vec::from_slice(alloc, b"no memory\n")?),
        Status::Threw { kind, message } => {
            with_exception(alloc, kind.as_slice(), message.as_slice())
        }
        Status::Spent { steps } => with_number(alloc, b"spent ", *steps),
        Status::Stopped { place } => with_place(alloc, b"stopped ", asm, *place),
        Status::Stuck { place } => with_place(alloc, b"stuck ", asm, *place),
    }
}
