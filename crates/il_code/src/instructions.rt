ghost use Rattle.std.specs.Prelude.{◌≡◌, ◌+◌, ◌*◌, ◌≤◌, ◌<◌, ◌^◌, drop, length, IfOk, IfSome, option_map};
ghost use Rattle.il_base.specs.Bytes.{number_at};
ghost use Rattle.il_base.specs.body_grammar.Instructions as grammar;
ghost use Rattle.il_code.specs.Gives.{Gives, same};

use crate::error::BodyError;
use crate::opcodes::{float, kind};
use byteorder::{ByteOrder, LittleEndian};
use il_base::body_grammar::{BODY, FLOAT, Fault, INSTRUCTION, Inline};
use il_base::{Form, Instr, NoMemory, Operand, Seq, u8_at, u16_at, u32_at, u64_at};
use std::alloc::Global;

/// The opcode at the front, and how many bytes it has. `place` is that of the instruction.
#[tactic(auto, unfolding(il_base::specs::body_grammar::Instructions::opcode_at))]
fn opcode(code: &[u8], place: u32) -> Result<(u16, usize), Fault>
    ensures exact { result ≡ grammar.opcode_at place code.now }
    ensures within { IfOk result (λ r. (0 < r.1) × (r.1 ≤ length code.now)) }
{
    let Some(first) = u8_at(code, 0) else {
        return Err(Fault {
            at: place,
            what: BODY,
        });
    };
    if first != 0xfe {
        return Ok((u16::from(first), 1));
    }
    let Some(second) = u8_at(code, 1) else {
        return Err(Fault {
            at: place,
            what: BODY,
        });
    };
    Ok((0xfe00 + u16::from(second), 2))
}

/// The form and the inline argument of an opcode, or why it has no reading.
#[tactic(auto, unfolding(il_base::specs::body_grammar::Instructions::kind_at))]
fn known(place: u32, opcode: u16) -> Result<(Form, Inline), Fault>
    ensures { result ≡ grammar.kind_at place opcode }
{
    match kind(opcode) {
        Some(kind) => Ok(kind),
        None => {
            let what = if float(opcode) { FLOAT } else { INSTRUCTION };
            Err(Fault { at: place, what })
        }
    }
}

/// The IL offset at a distance from the end of an instruction, modulo 2^32.
fn target(end: u32, distance: u32) -> u32
    ensures { result ≡ grammar.target end distance }
{
    end.wrapping_add(distance)
}

/// A signed byte as a number modulo 2^32.
fn extended(b: u8) -> u32
    ensures { result ≡ grammar.extended b }
{
    if b < 0x80 {
        u32::from(b)
    } else {
        u32::from(b) + 0xffff_ff00
    }
}

/// The targets of a switch that ends at an IL offset, from their distances.
fn targets(alloc: Global, count: u32, end: u32, bytes: &[u8]) -> Result<Seq<u32>, NoMemory>
    requires { 4 * count ≤ length bytes.now }
    ensures { IfOk result (λ s. s ≡ grammar.targets count end bytes.now) }
{
    let mut targets = Seq::new(alloc);
    for i in 0..count {
        let distance = LittleEndian::read_u32(&bytes[4 * i as usize..]);
        targets.push(target(end, distance))?;
    }
    Ok(targets)
}

/// The targets of a switch whose opcode ends at `next`, and how many bytes they take.
#[tactic(auto, unfolding(il_base::specs::body_grammar::Instructions::switch_at))]
fn switch(alloc: Global, next: u32, bytes: &[u8]) -> Result<Option<(Operand, usize)>, NoMemory>
    requires { next + length bytes.now < 2 ^ 32 }
    ensures exact { IfOk result (λ o. o ≡ grammar.switch_at next bytes.now) }
    ensures within { IfOk result (λ o. IfSome o (λ r. r.1 ≤ length bytes.now)) }
{
    let Some(count) = u32_at(bytes, 0) else {
        return Ok(None);
    };
    let size = 4 + 4 * count as usize;
    if bytes.len() < size {
        return Ok(None);
    }
    let targets = targets(alloc, count, next + size as u32, &bytes[4..])?;
    Ok(Some((Operand::Targets(targets), size)))
}

/// The operand of an opcode that ends at `next`, and how many of the bytes after it are its own.
#[tactic(auto, unfolding(il_base::specs::body_grammar::Instructions::operand_at))]
fn operand(
    alloc: Global,
    inline: Inline,
    opcode: u16,
    next: u32,
    bytes: &[u8],
) -> Result<Option<(Operand, usize)>, NoMemory>
    requires { next + length bytes.now < 2 ^ 32 }
    ensures exact { IfOk result (λ o. o ≡ grammar.operand_at inline opcode next bytes.now) }
    ensures within { IfOk result (λ o. IfSome o (λ r. r.1 ≤ length bytes.now)) }
{
    Ok(match inline {
        Inline::InlineNone => Some((Operand::None, 0)),
        Inline::FixedSlot(first) => Some((
            Operand::Slot(u32::from(opcode.saturating_sub(first))),
            0,
        )),
        Inline::FixedNumber(first) => {
            Some((Operand::Number(i64::from(opcode) - i64::from(first)), 0))
        }
        Inline::ShortInlineVar => u8_at(bytes, 0).map(|n| (Operand::Slot(u32::from(n)), 1)),
        Inline::InlineVar => u16_at(bytes, 0).map(|n| (Operand::Slot(u32::from(n)), 2)),
        Inline::ShortInlineI => {
            u8_at(bytes, 0).map(|n| (Operand::Number(i64::from(n.cast_signed())), 1))
        }
        Inline::InlineI => {
            u32_at(bytes, 0).map(|n| (Operand::Number(i64::from(n.cast_signed())), 4))
        }
        Inline::InlineI8 => u64_at(bytes, 0).map(|n| (Operand::Number(n.cast_signed()), 8)),
        Inline::InlineTok => u32_at(bytes, 0).map(|n| (Operand::Token(n), 4)),
        Inline::ShortInlineBrTarget => {
            u8_at(bytes, 0).map(|n| (Operand::Target(target(next + 1, extended(n))), 1))
        }
        Inline::InlineBrTarget => {
            u32_at(bytes, 0).map(|n| (Operand::Target(target(next + 4, n)), 4))
        }
        Inline::InlineSwitch => return switch(alloc, next, bytes),
    })
}

/// The instruction at the front, by its IL offset and its place, and how many bytes it takes.
#[tactic(auto, unfolding(il_base::specs::body_grammar::Instructions::instr_at))]
fn instruction(alloc: Global, at: u32, place: u32, code: &[u8]) -> Result<(Instr, usize), BodyError>
    requires { at + length code.now < 2 ^ 32 }
    ensures gives { Gives same result (grammar.instr_at at place code.now) }
    ensures within { IfOk result (λ r. (0 < r.1) × (r.1 ≤ length code.now)) }
{
    let (opcode, size) = opcode(code, place)?;
    let (form, inline) = known(place, opcode)?;
    let rest = &code[size..];
    let Some((operand, more)) = operand(alloc, inline, opcode, at + size as u32, rest)? else {
        return Err(BodyError::Bad {
            at: place,
            what: BODY,
        });
    };
    let instr = Instr {
        at,
        form,
        opcode,
        operand,
    };
    Ok((instr, size + more))
}

/// The instructions of a code, one after another. `base` is the code's place.
pub fn code(alloc: Global, base: u32, bytes: &[u8]) -> Result<Seq<Instr>, BodyError>
    requires { base + length bytes.now < 2 ^ 32 }
    ensures { Gives same result (grammar.code_at base bytes.now) }
{
    let mut code = Seq::new(alloc);
    let mut at = 0;
    while at < bytes.len() {
        let place = base + at as u32;
        let (instr, size) = match instruction(alloc, at as u32, place, &bytes[at..]) {
            Ok(read) => read,
            Err(error) => return Err(error),
        };
        code.push(instr)?;
        at += size;
    }
    Ok(code)
}
