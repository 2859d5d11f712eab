//! How many bytes method bodies take (II.25.4), modulo 2^32.

ghost use Rattle.std.specs.Prelude.{◌≡◌, ◌%◌, ◌^◌, ◌<◌, length};
ghost use Rattle.il_base.specs.body_grammar.BodySpelling as grammar;
ghost use Rattle.merge_plan.specs.method_places.Lengths.{section_size};

use il_base::{Body, Instr};
use il_code::instr_size;

/// How many bytes some instructions take, modulo 2^32.
#[tactic(auto, unfolding(crate::proofs::lemmas::method_places::Sizing::size_from))]
fn code_size(code: &[Instr]) -> u64
    ensures { result ≡ length (grammar.code_bytes code.now) % 4294967296 }
{
    let mut size = 0;
    for instr in code {
        size = (size + instr_size(instr)) % 0x1_0000_0000;
    }
    size
}

/// How many bytes stand after a code of this size: up to the next multiple of 4, and the handler section (II.25.4.5).
fn section_size(b: &Body, code: u64) -> u64
    requires { code < 2 ^ 32 }
    ensures { result ≡ section_size b.now code }
{
    if !b.fat_handlers && b.handlers.is_empty() {
        return 0;
    }
    let from = 12 + code;
    let clause = if b.fat_handlers { 24 } else { 12 };
    let clauses = b.handlers.len() as u64 % 0x1_0000_0000;
    (from + 3) / 4 * 4 - from + (4 + clause * clauses)
}

/// How many bytes a body takes, modulo 2^32.
#[tactic(auto, using(crate::proofs::lemmas::method_places::Sizing::body_modulo))]
pub(crate) fn body_size(b: &Body) -> u32
    ensures { result ≡ length (grammar.body_bytes b.now) % 4294967296 }
{
    let code = code_size(b.code.as_slice());
    let header = if b.tiny { 1 } else { 12 };
    ((header + code + section_size(b, code)) % 0x1_0000_0000) as u32
}
