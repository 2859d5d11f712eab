ghost use Rattle.std.specs.Prelude.{◌≡◌, IfOk};
ghost use Rattle.std.specs.List.{list_any};
ghost use Rattle.std.specs.Option.{option_map};
ghost use Rattle.attr_blobs.specs.TypeNames.{parts, texts_of, named, filled, assembly_of, opens_other, name_of, name_of_units};

use crate::mark::{Mark, cut, is_sign, marks_of, text_of, trimmed, utf16_letters};
use il_base::{NoMemory, Seq, Text, Units};
use std::alloc::Global;

/// The name of a type, as a text has it.
#[derive(Drop)]
pub struct TypeName {
    /// The full name of the outermost type in UTF-8, then the names of nested types from outside inwards.
    pub path: Seq<Text>,
    /// The name of the assembly, if the text has one.
    pub asm: Option<Text>,
}

/// What a text names.
#[derive(Drop)]
pub enum NameRead {
    Name(TypeName),
    /// An array, a pointer, a reference or a constructed type: the path has a `[`, `*` or `&`.
    Other,
    /// A part is empty, a `\` stands at the end, or a surrogate stands alone.
    Malformed,
}

/// What a text in UTF-16 names. A type's full name comes first, then `+` before the name of each nested type, then
/// maybe `,` and the name of an assembly, which ends at the next comma. `\` takes the next character as itself.
pub fn parse_name(alloc: Global, text: &Units) -> Result<NameRead, NoMemory>
    ensures { IfOk result (λ r. r ≡ name_of_units text.now) }
{
    let letters = utf16_letters(alloc, text.as_slice())?;
    let name = read_name(alloc, letters.as_slice())?;
    Ok(name)
}

/// What a text of these characters names. None stands for a lone surrogate.
pub(crate) fn read_name(alloc: Global, letters: &[Option<char>]) -> Result<NameRead, NoMemory>
    ensures { IfOk result (λ r. r ≡ name_of letters.now) }
{
    let marks = marks_of(alloc, letters)?;
    let (path, behind) = cut(marks.as_slice(), ',');
    if has_other(path) {
        return Ok(NameRead::Other);
    }
    let path = path_of(alloc, path)?;
    let asm = assembly_of(alloc, behind)?;
    Ok(named(path, asm))
}

fn named(path: Option<Seq<Text>>, asm: Option<Option<Text>>) -> NameRead
    ensures { result ≡ named path asm }
{
    match (path, asm) {
        (Some(path), Some(asm)) => NameRead::Name(TypeName { path, asm }),
        _ => NameRead::Malformed,
    }
}

fn has_other(path: &[Mark]) -> bool
    ensures { result ≡ list_any opens_other path.now }
{
    path.iter().any(opens_other)
}

fn opens_other(mark: &Mark) -> bool
    ensures { result ≡ opens_other mark.now }
{
    is_sign('[', mark) || is_sign('*', mark) || is_sign('&', mark)
}

fn path_of(alloc: Global, marks: &[Mark]) -> Result<Option<Seq<Text>>, NoMemory>
    ensures { IfOk result (λ p. p ≡ texts_of (parts marks.now)) }
{
    let mut path = Seq::new(alloc);
    let mut rest = marks;
    loop {
        let (part, behind) = cut(rest, '+');
        match filled(text_of(alloc, part)?) {
            Some(text) => path.push(text)?,
            None => return Ok(None),
        }
        match behind {
            Some(marks) => rest = marks,
            None => return Ok(Some(path)),
        }
    }
}

// No part is empty.
fn filled(text: Option<Text>) -> Option<Text>
    ensures { result ≡ filled text }
{
    match text {
        Some(text) if !text.is_empty() => Some(text),
        _ => None,
    }
}

fn assembly_of(alloc: Global, behind: Option<&[Mark]>) -> Result<Option<Option<Text>>, NoMemory>
    ensures { IfOk result (λ a. a ≡ assembly_of (option_map (λ b. b.now) behind.entry)) }
{
    let Some(behind) = behind else {
        return Ok(Some(None));
    };
    let (name, _) = cut(behind, ',');
    match filled(text_of(alloc, trimmed(name))?) {
        Some(text) => Ok(Some(Some(text))),
        None => Ok(None),
    }
}
