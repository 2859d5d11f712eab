//! What texts in UTF-8 name.

ghost use Rattle.std.specs.Prelude.{◌≡◌, ◌++◌, Some, map, IfOk, OnOk};
ghost use Rattle.std.specs.List.{flat_map};
ghost use Rattle.std.specs.Str.{chars};
ghost use Rattle.std.specs.Char.Escape.{encode_utf16};
ghost use Rattle.attr_blobs.specs.TypeNames.{name_of};
ghost use Rattle.attr_blobs.specs.Values.{name_of_text};

use attr_blobs::{NameRead, parse_name};
use il_base::{NoMemory, Seq, Units};
use std::alloc::Global;
use std::str::from_utf8;

/// The first code point that has two units, the first units of these, the second ones, and how many there are of each.
const PAIRS: u32 = 0x1_0000;

const HIGH: u32 = 0xd800;

const LOW: u32 = 0xdc00;

const HALF: u32 = 0x400;

/// Puts the one or two units of a character at the end.
fn push_char(units: &mut Units, c: char) -> Result<(), NoMemory>
    ensures { OnOk result (units.new ≡ units.old ++ encode_utf16 c) }
{
    let code = c as u32;
    if code < PAIRS {
        units.push(code as u16)?;
        return Ok(());
    }
    let over = code - PAIRS;
    units.push((HIGH + over / HALF) as u16)?;
    units.push((LOW + over % HALF) as u16)?;
    Ok(())
}

/// The UTF-16 units of a text.
fn units_of(alloc: Global, text: &str) -> Result<Units, NoMemory>
    ensures { IfOk result (λ units. units ≡ flat_map encode_utf16 (chars text.now)) }
{
    let mut units = Seq::new(alloc);
    for c in text.chars() {
        push_char(&mut units, c)?;
    }
    Ok(units)
}

/// What a text names.
fn name_of(alloc: Global, text: &str) -> Result<NameRead, NoMemory>
    ensures { IfOk result (λ name. name ≡ name_of (map (λ c. Some c) (chars text.now))) }
{
    let units = units_of(alloc, text)?;
    let name = parse_name(alloc, &units)?;
    Ok(name)
}

/// What bytes name: those that are no UTF-8 are malformed.
pub fn name_of_text(alloc: Global, text: &[u8]) -> Result<NameRead, NoMemory>
    ensures { IfOk result (λ name. name ≡ name_of_text text.now) }
{
    match from_utf8(text) {
        Ok(text) => {
            let name = name_of(alloc, text)?;
            Ok(name)
        }
        Err(_) => Ok(NameRead::Malformed),
    }
}
