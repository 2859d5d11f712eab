//! What texts in UTF-8 name. Bytes go in, and the name of a type that they spell comes out: `name_of_text` of
//! `attr_blobs/specs/Values`.

ghost use Rattle.std.specs.Prelude.{◌≡◌, ◌∷◌, [], ◌++◌, List, ℕ, Some, map, IfOk, OnOk};
ghost use Rattle.std.specs.Char.Utf16.{utf16_chars};
ghost use Rattle.std.specs.Str.{chars};
ghost use Rattle.attr_blobs.specs.Values.{name_of_text};
ghost use Rattle.descriptor_texts.specs.name_texts.Spelling.{Spell};

use attr_blobs::{NameRead, parse_name};
use il_base::{NoMemory, Seq, Units};
use std::alloc::Global;
use std::str::from_utf8;

/// Puts the one or two units of a character at the end.
fn push_char(units: &mut Units, c: char) -> Result<(), NoMemory>
    ensures { OnOk result ((cs : List ℕ) → Spell units.old cs → Spell units.new (cs ++ c ∷ [])) }
{
    let code = c as u32;
    if code < 0x1_0000 {
        units.push(code as u16)?;
        return Ok(());
    }
    let over = code - 0x1_0000;
    units.push((0xd800 + over / 0x400) as u16)?;
    units.push((0xdc00 + over % 0x400) as u16)?;
    Ok(())
}

/// The UTF-16 units of a text.
fn units_of_text(alloc: Global, text: &str) -> Result<Units, NoMemory>
    ensures { IfOk result (λ units. utf16_chars units ≡ map (λ c. Some c) (chars text.now)) }
{
    let mut units = Seq::new(alloc);
    for c in text.chars() {
        push_char(&mut units, c)?;
    }
    Ok(units)
}

/// What a text in UTF-8 names (II.23.3): a type's full name, `+` before the name of each nested type, and maybe `,` and the name
/// of an assembly. Bytes that are no UTF-8 are malformed.
pub fn name_of_text(alloc: Global, text: &[u8]) -> Result<NameRead, NoMemory>
    ensures { IfOk result (λ name. name ≡ name_of_text text.now) }
{
    match from_utf8(text) {
        Ok(text) => {
            let units = units_of_text(alloc, text)?;
            let name = parse_name(alloc, &units)?;
            Ok(name)
        }
        Err(_) => Ok(NameRead::Malformed),
    }
}
