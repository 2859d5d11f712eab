//! The units of bytes.

ghost use Rattle.std.specs.Prelude.{◌≡◌, ◌<◌, ◌++◌, IfOk, OnOk};
ghost use Rattle.std.specs.Char.Escape.{encode_utf16};
ghost use Rattle.rules.specs.step_rules.Input.{char_at, decoded, more_bytes, units_before};

use crate::characters::char_at;
use il_base::NoMemory;
use il_base::cil_values::Stack;
use std::alloc::Global;

/// What stands for a byte outside a well-formed sequence.
const REPLACEMENT: u16 = 0xfffd;
/// The first code point that has two units, the first units of these, and how many of each there are.
const PAIRS: u32 = 0x1_0000;

const HIGH: u32 = 0xd800;

const LOW: u32 = 0xdc00;

const HALF: u32 = 0x400;

/// Appends the one or two units of a character to others.
fn push_character(units: &mut Vec<u16>, code: u32) -> Result<(), NoMemory>
    requires { code < 0x110000 }
    ensures { OnOk result (units.new.items ≡ units.old.items ++ encode_utf16 code) }
{
    if code < PAIRS {
        units.push(code as u16)?;
        return Ok(());
    }
    let above = code - PAIRS;
    units.push((HIGH + above / HALF) as u16)?;
    units.push((LOW + above % HALF) as u16)?;
    Ok(())
}

/// Appends the units of the character that begins with a byte to others. Gives how many bytes it has after its first.
fn push_at(units: &mut Vec<u16>, b: u8, rest: &[u8]) -> Result<usize, NoMemory>
    ensures more { IfOk result (λ n. n ≡ more_bytes (char_at b rest.now)) }
    ensures units { OnOk result (units.new.items ≡ units.old.items ++ units_before (char_at b rest.now)) }
{
    match char_at(b, rest) {
        None => {
            units.push(REPLACEMENT)?;
            Ok(0)
        }
        Some(d) => {
            push_character(units, d.code)?;
            Ok(d.more)
        }
    }
}

/// The units of some bytes, the first one on top. A byte order mark is a unit as any other.
#[tactic(auto, using(crate::proofs::Decoding::inside_character))]
pub fn decoded(alloc: Global, bytes: &[u8]) -> Result<Stack<u16>, NoMemory>
    ensures { IfOk result (λ units. units ≡ decoded bytes.now) }
{
    let mut units = Vec::new(alloc);
    let mut inside: usize = 0;
    for at in 0..bytes.len() {
        if inside > 0 {
            inside -= 1;
            continue;
        }
        inside = push_at(&mut units, bytes[at], &bytes[at + 1..])?;
    }
    units.reverse();
    Ok(Stack::from_vec(units))
}
