//! Elements of arrays of integers, from bytes.

ghost use Rattle.std.specs.Prelude.{◌≡◌, ◌*◌, ◌≤◌, drop, nat_le, pos, length, IfOk};
ghost use Rattle.byteorder.specs.Endian.{little_number};
ghost use Rattle.rules.specs.step_rules.Integers.{number, width_of};
ghost use Rattle.rules.specs.step_rules.CoreArrays.{elements_of};

use byteorder::{ByteOrder, LittleEndian};
use il_base::cil_values::Value;
use il_base::{NoMemory, Seq};
use machine_words::cil_stores::{number, width_of};
use std::alloc::Global;

/// How many bytes an element of the type has: 1, 2, 4 or 8.
#[tactic(auto, unfolding(rules::specs::step_rules::Integers::width_of))]
fn width(code: u8) -> usize
    ensures value { result ≡ width_of code }
    ensures some { 1 ≤ result }
    ensures few { result ≤ 8 }
{
    width_of(code) as usize
}

/// A number of a type, from its bits.
fn number_of_bits(code: u8, n: u64) -> Value
    ensures { result ≡ number code (pos n) }
{
    number(code, n.cast_signed())
}

/// The element that the first bytes make, little-endian.
fn element(code: u8, bytes: &[u8]) -> Value
    requires { width_of code ≤ length bytes.now }
    ensures { result ≡ number code (pos (little_number (width_of code) bytes.now)) }
{
    let n = LittleEndian::read_uint(bytes, width(code));
    number_of_bits(code, n)
}

/// The bytes after the first `n`.
fn behind(bytes: &[u8], n: usize) -> &[u8]
    requires { n ≤ length bytes.now }
    ensures { result.now ≡ drop n bytes.now }
{
    &bytes[n..]
}

/// Elements of a type of integers (II.23.1.16), from their bytes.
#[tactic(auto, using(crate::proofs::lemmas::cil_console_members::ElementLemmas::front_fits, crate::proofs::lemmas::cil_console_members::ElementLemmas::rest_fits, crate::proofs::lemmas::cil_console_members::ElementLemmas::one_more, crate::proofs::lemmas::cil_console_members::ElementLemmas::none_left))]
pub(crate) fn elements_of(
    alloc: Global,
    code: u8,
    count: usize,
    bytes: &[u8],
) -> Result<Seq<Value>, NoMemory>
    requires { count * width_of code ≤ length bytes.now }
    ensures { IfOk result (λ cells. cells ≡ elements_of code count bytes.now) }
{
    let width = width(code);
    let mut cells = Seq::new(alloc);
    let mut left = bytes;
    let mut rest = count;
    while rest > 0 {
        cells.push(element(code, left))?;
        left = behind(left, width);
        rest -= 1;
    }
    Ok(cells)
}

/// Whether there are enough bytes for so many elements.
pub(crate) fn has_bytes(code: u8, count: usize, bytes: &[u8]) -> bool
    ensures { result ≡ nat_le (count * width_of code) (length bytes.now) }
{
    match count.checked_mul(width(code)) {
        None => false,
        Some(least) => least <= bytes.len(),
    }
}
