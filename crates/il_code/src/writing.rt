ghost use Rattle.std.specs.Prelude.{◌≡◌, ◌+◌, ◌*◌, ◌%◌, ◌<◌, ◌≤◌, ◌^◌, ◌∷◌, ◌++◌, [], length, replicate, OnOk, OnErr, IfOk};
ghost use Rattle.byteorder.specs.Endian.{little_bytes};
ghost use Rattle.il_base.specs.body_grammar.Bodies.{aligned};
ghost use Rattle.il_base.specs.body_grammar.BodySpelling as grammar;
ghost use Rattle.il_base.specs.body_grammar.Opcodes.{kind_of};
ghost use Rattle.std.specs.List.{All};

use crate::opcodes::kind;
use il_base::body_grammar::Inline;
use il_base::{Body, Handler, Instr, NoMemory, Operand};
use std::alloc::Global;

/// Puts a byte at the end.
fn put_byte(out: &mut Vec<u8>, n: u8) -> Result<(), NoMemory>
    ensures { OnOk result (out.new.items ≡ out.old.items ++ n ∷ []) }
{
    out.push(n)?;
    Ok(())
}

/// Puts two bytes at the end, the lowest first.
fn put_half(out: &mut Vec<u8>, n: u16) -> Result<(), NoMemory>
    ensures { OnOk result (out.new.items ≡ out.old.items ++ little_bytes 2 n) }
{
    out.extend_from_slice(&n.to_le_bytes())?;
    Ok(())
}

/// Puts four bytes at the end, the lowest first.
fn put_word(out: &mut Vec<u8>, n: u32) -> Result<(), NoMemory>
    ensures { OnOk result (out.new.items ≡ out.old.items ++ little_bytes 4 n) }
{
    out.extend_from_slice(&n.to_le_bytes())?;
    Ok(())
}

/// Puts eight bytes at the end, the lowest first.
fn put_long(out: &mut Vec<u8>, n: u64) -> Result<(), NoMemory>
    ensures { OnOk result (out.new.items ≡ out.old.items ++ little_bytes 8 n) }
{
    out.extend_from_slice(&n.to_le_bytes())?;
    Ok(())
}

/// The distance of a target from the end of an instruction, modulo 2^32.
fn distance(end: u64, target: u32) -> u32
    ensures { result ≡ grammar.distance end target }
{
    target.wrapping_sub((end % 0x1_0000_0000) as u32)
}

/// Puts the distances of a switch's targets.
fn put_distances(out: &mut Vec<u8>, end: u64, targets: &[u32]) -> Result<(), NoMemory>
    ensures { OnOk result (out.new.items ≡ out.old.items ++ grammar.distances end targets.now) }
{
    for target in targets {
        put_word(out, distance(end, *target))?;
    }
    Ok(())
}

/// Puts the targets of a switch whose opcode ends at `next`.
fn put_switch(out: &mut Vec<u8>, next: u64, targets: &[u32]) -> Result<(), NoMemory>
    requires next { next < 2 ^ 33 }
    requires count { length targets.now < 2 ^ 32 }
    ensures { OnOk result (out.new.items ≡ out.old.items
        ++ (little_bytes 4 (length targets.now % 4294967296) ++ grammar.distances (next + (4 + 4 * length targets.now)) targets.now)) }
{
    put_word(out, (targets.len() as u64 % 0x1_0000_0000) as u32)?;
    put_distances(out, next + (4 + 4 * targets.len() as u64), targets)
}

/// Puts the operand of an opcode that ends at `next`.
#[tactic(auto, unfolding(il_base::specs::body_grammar::BodySpelling::operand_bytes))]
fn put_operand(
    out: &mut Vec<u8>,
    inline: Inline,
    next: u64,
    operand: &Operand,
) -> Result<(), NoMemory>
    requires next { next < 2 ^ 33 }
    requires count { grammar.targets_fit operand.now }
    ensures { OnOk result (out.new.items ≡ out.old.items ++ grammar.operand_bytes inline next operand.now) }
{
    match (inline, operand) {
        (Inline::ShortInlineVar, Operand::Slot(n)) => put_byte(out, (*n % 0x100) as u8),
        (Inline::InlineVar, Operand::Slot(n)) => put_half(out, (*n % 0x1_0000) as u16),
        (Inline::ShortInlineI, Operand::Number(z)) => {
            put_byte(out, (z.cast_unsigned() % 0x100) as u8)
        }
        (Inline::InlineI, Operand::Number(z)) => {
            put_word(out, (z.cast_unsigned() % 0x1_0000_0000) as u32)
        }
        (Inline::InlineI8, Operand::Number(z)) => put_long(out, z.cast_unsigned()),
        (Inline::InlineTok, Operand::Token(t)) => put_word(out, *t),
        (Inline::ShortInlineBrTarget, Operand::Target(t)) => {
            put_byte(out, (distance(next + 1, *t) % 0x100) as u8)
        }
        (Inline::InlineBrTarget, Operand::Target(t)) => put_word(out, distance(next + 4, *t)),
        (Inline::InlineSwitch, Operand::Targets(ts)) => put_switch(out, next, ts.as_slice()),
        _ => Ok(()),
    }
}

/// Puts an opcode: one byte, or two where the first is fe.
#[tactic(auto, unfolding(il_base::specs::body_grammar::BodySpelling::opcode_bytes))]
fn put_opcode(out: &mut Vec<u8>, opcode: u16) -> Result<(), NoMemory>
    ensures { OnOk result (out.new.items ≡ out.old.items ++ grammar.opcode_bytes opcode) }
{
    if opcode < 0x100 {
        put_byte(out, opcode as u8)
    } else {
        out.extend_from_slice(&[0xfe, (opcode % 0x100) as u8])?;
        Ok(())
    }
}

/// How many bytes an opcode has.
fn opcode_size(opcode: u16) -> u64
    ensures { result ≡ grammar.opcode_size opcode }
{
    if opcode < 0x100 { 1 } else { 2 }
}

/// The inline argument of an opcode.
fn inline_of(opcode: u16) -> Inline
    ensures { result ≡ grammar.inline_in (kind_of opcode) }
{
    match kind(opcode) {
        Some((_, inline)) => inline,
        None => Inline::InlineNone,
    }
}

/// Puts an instruction.
#[tactic(auto, unfolding(il_base::specs::body_grammar::BodySpelling::instr_bytes))]
fn put_instruction(out: &mut Vec<u8>, i: &Instr) -> Result<(), NoMemory>
    requires { grammar.targets_fit i.now.operand }
    ensures { OnOk result (out.new.items ≡ out.old.items ++ grammar.instr_bytes i.now) }
{
    put_opcode(out, i.opcode)?;
    let next = u64::from(i.at) + opcode_size(i.opcode);
    put_operand(out, inline_of(i.opcode), next, &i.operand)
}

/// The bytes of instructions.
fn code(alloc: Global, instrs: &[Instr]) -> Result<Vec<u8>, NoMemory>
    requires { All (λ i. grammar.targets_fit i.operand) instrs.now }
    ensures { IfOk result (λ v. v.items ≡ grammar.code_bytes instrs.now) }
{
    let mut out = Vec::new(alloc);
    for i in instrs {
        put_instruction(&mut out, i)?;
    }
    Ok(out)
}

/// The low byte of a fat header's flags.
fn flags(sects: bool, init: bool) -> u8
    ensures { result ≡ grammar.flags_byte sects init }
{
    match (sects, init) {
        (false, false) => 0x03,
        (true, false) => 0x0b,
        (false, true) => 0x13,
        (true, true) => 0x1b,
    }
}

/// Puts a header, by whether a handler section stands after the code and by the size of the code.
#[tactic(auto, unfolding(il_base::specs::body_grammar::BodySpelling::header_bytes))]
fn put_header(out: &mut Vec<u8>, b: &Body, sects: bool, size: usize) -> Result<(), NoMemory>
    requires { size < 2 ^ 32 }
    ensures { OnOk result (out.new.items ≡ out.old.items ++ grammar.header_bytes b.now sects size) }
{
    if b.tiny {
        return put_byte(out, ((2 + 4 * size) % 0x100) as u8);
    }
    out.extend_from_slice(&[flags(sects, b.init), 0x30])?;
    put_half(out, b.max_stack)?;
    put_word(out, (size % 0x1_0000_0000) as u32)?;
    put_word(out, b.locals)
}

/// Puts the zeros between a place and the next multiple of 4.
#[tactic(auto, using(crate::proofs::Written::zeros_more))]
fn put_padding(out: &mut Vec<u8>, place: usize) -> Result<(), NoMemory>
    requires { place < 2 ^ 33 }
    ensures { OnOk result (out.new.items ≡ out.old.items ++ grammar.padding place) }
{
    let end = (place + 3) / 4 * 4;
    for _ in place..end {
        put_byte(out, 0)?;
    }
    Ok(())
}

/// Puts a range of a clause of 12 bytes.
fn put_small_range(out: &mut Vec<u8>, at: u32, len: u32) -> Result<(), NoMemory>
    ensures { OnOk result (out.new.items ≡ out.old.items ++ grammar.small_range at len) }
{
    put_half(out, (at % 0x1_0000) as u16)?;
    put_byte(out, (len % 0x100) as u8)
}

/// Puts a clause of 12 bytes.
fn put_small_clause(out: &mut Vec<u8>, h: &Handler) -> Result<(), NoMemory>
    ensures { OnOk result (out.new.items ≡ out.old.items ++ grammar.small_clause_bytes h.now) }
{
    out.extend_from_slice(&[h.kind, 0])?;
    put_small_range(out, h.try_at, h.try_len)?;
    put_small_range(out, h.at, h.len)?;
    put_word(out, h.token)
}

/// Puts a clause of 24 bytes.
fn put_fat_clause(out: &mut Vec<u8>, h: &Handler) -> Result<(), NoMemory>
    ensures { OnOk result (out.new.items ≡ out.old.items ++ grammar.fat_clause_bytes h.now) }
{
    out.extend_from_slice(&[h.kind, 0, 0, 0])?;
    put_word(out, h.try_at)?;
    put_word(out, h.try_len)?;
    put_word(out, h.at)?;
    put_word(out, h.len)?;
    put_word(out, h.token)
}

/// Puts a clause.
fn put_clause(out: &mut Vec<u8>, fat: bool, h: &Handler) -> Result<(), NoMemory>
    ensures { OnOk result (out.new.items ≡ out.old.items ++ grammar.clause_bytes fat h.now) }
{
    if fat {
        put_fat_clause(out, h)
    } else {
        put_small_clause(out, h)
    }
}

/// Puts the clauses of a section.
fn put_clauses(out: &mut Vec<u8>, fat: bool, handlers: &[Handler]) -> Result<(), NoMemory>
    ensures { OnOk result (out.new.items ≡ out.old.items ++ grammar.clauses_bytes fat handlers.now) }
{
    for h in handlers {
        put_clause(out, fat, h)?;
    }
    Ok(())
}

/// Puts the head of a section with so many clauses.
#[tactic(auto, unfolding(il_base::specs::body_grammar::BodySpelling::section_head))]
fn put_section_head(out: &mut Vec<u8>, fat: bool, count: usize) -> Result<(), NoMemory>
    requires { count < 2 ^ 32 }
    ensures { OnOk result (out.new.items ≡ out.old.items ++ grammar.section_head fat count (0 ∷ 0 ∷ [])) }
{
    if fat {
        let size = 4 + 24 * count;
        let low = (size % 0x100) as u8;
        let middle = (size / 0x100 % 0x100) as u8;
        let high = (size / 0x1_0000 % 0x100) as u8;
        out.extend_from_slice(&[0x41, low, middle, high])?;
    } else {
        let size = ((4 + 12 * count) % 0x100) as u8;
        out.extend_from_slice(&[0x01, size, 0, 0])?;
    }
    Ok(())
}

/// Appends a handler section to a code that ends at a place.
fn put_section(out: &mut Vec<u8>, b: &Body, place: usize) -> Result<(), NoMemory>
    requires place { place < 2 ^ 33 }
    requires count { length b.now.handlers < 2 ^ 32 }
    ensures { OnOk result (out.new.items ≡ out.old.items ++ grammar.section_bytes (grammar.padding place) (0 ∷ 0 ∷ []) b.now) }
{
    put_padding(out, place)?;
    put_section_head(out, b.fat_handlers, b.handlers.len())?;
    put_clauses(out, b.fat_handlers, b.handlers.as_slice())
}

/// Puts a body whose code has these bytes.
fn put_body(out: &mut Vec<u8>, b: &Body, code: &[u8]) -> Result<(), NoMemory>
    requires size { length code.now < 2 ^ 32 }
    requires count { length b.now.handlers < 2 ^ 32 }
    ensures { OnOk result (out.new.items ≡ out.old.items ++ grammar.body_of (grammar.writing b.now (length code.now)) b.now code.now) }
{
    let sects = b.fat_handlers || !b.handlers.is_empty();
    put_header(out, b, sects, code.len())?;
    out.extend_from_slice(code)?;
    if sects {
        put_section(out, b, 12 + code.len())?;
    }
    Ok(())
}

/// Writes a body after what stands in `out`, by its header form, its opcodes and its form of handler clauses. What
/// needn't stand does not: a small handler section without clauses is left out, and bytes that aren't looked at are 0.
///
/// Where the allocator refuses, `out` is as before.
pub fn write_body(b: &Body, out: &mut Vec<u8>) -> Result<(), NoMemory>
    requires { grammar.HasSpelling b.now }
    ensures ok { OnOk result (out.new.items ≡ out.old.items ++ grammar.body_bytes b.now) }
    ensures err { OnErr result (out.new.items ≡ out.old.items) }
{
    let alloc = *out.allocator();
    let code = code(alloc, b.code.as_slice())?;
    let mut bytes = Vec::new(alloc);
    put_body(&mut bytes, b, &code)?;
    out.extend_from_slice(&bytes)?;
    Ok(())
}
