//! How many bytes an instruction takes, by its opcode and operand (III.1.2).

ghost use Rattle.std.specs.Prelude.{◌≡◌, ◌%◌, ◌^◌, ◌<◌, length};
ghost use Rattle.il_base.specs.body_grammar.BodySpelling as grammar;
ghost use Rattle.il_base.specs.body_grammar.Opcodes.{kind_of};
ghost use Rattle.il_code.specs.Lengths.{operand_size};

use crate::opcodes::kind;
use il_base::body_grammar::Inline;
use il_base::{Instr, Operand};

/// The inline argument of an opcode.
fn inline_of(opcode: u16) -> Inline
    ensures { result ≡ grammar.inline_in (kind_of opcode) }
{
    match kind(opcode) {
        Some((_, inline)) => inline,
        None => Inline::InlineNone,
    }
}

/// How many bytes an operand takes after its opcode, modulo 2^32.
fn operand_size(inline: Inline, operand: &Operand) -> u64
    ensures exact { result ≡ operand_size inline operand.now }
    ensures small { result < 2 ^ 35 }
{
    match (inline, operand) {
        (Inline::ShortInlineVar, Operand::Slot(_)) => 1,
        (Inline::InlineVar, Operand::Slot(_)) => 2,
        (Inline::ShortInlineI, Operand::Number(_)) => 1,
        (Inline::InlineI, Operand::Number(_)) => 4,
        (Inline::InlineI8, Operand::Number(_)) => 8,
        (Inline::InlineTok, Operand::Token(_)) => 4,
        (Inline::ShortInlineBrTarget, Operand::Target(_)) => 1,
        (Inline::InlineBrTarget, Operand::Target(_)) => 4,
        (Inline::InlineSwitch, Operand::Targets(targets)) => {
            4 + 4 * (targets.len() as u64 % 0x1_0000_0000)
        }
        _ => 0,
    }
}

fn opcode_size(opcode: u16) -> u64
    ensures { result ≡ grammar.opcode_size opcode }
{
    if opcode < 0x100 { 1 } else { 2 }
}

/// How many bytes an instruction takes, modulo 2^32.
#[tactic(auto, using(crate::proofs::InstrSizes::instr_length))]
pub fn instr_size(instr: &Instr) -> u64
    ensures { result ≡ length (grammar.instr_bytes instr.now) % 4294967296 }
{
    let operand = operand_size(inline_of(instr.opcode), &instr.operand);
    (opcode_size(instr.opcode) + operand) % 0x1_0000_0000
}
