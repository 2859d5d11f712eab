ghost use Rattle.std.specs.Prelude.{◌≡◌, map, IfOk, Some};
ghost use Rattle.std.specs.Cmp.Lexicographic.{pointwise};
ghost use Rattle.std.specs.Str.{bytes_eq, chars};
ghost use Rattle.attr_blobs.specs.Values.{same_assembly, same_name, names, size_of_named, size_of_enum, name_of_text};

use crate::name::{NameRead, TypeName, read_name};
use crate::value::EnumSize;
use il_base::{NoMemory, Text};
use std::alloc::{AllocError, Global};

/// The size of the first of these enums that the text names, or 4 without one.
pub fn size_of_enum(alloc: Global, enums: &[EnumSize], text: &[u8]) -> Result<u8, NoMemory>
    ensures { IfOk result (λ size. size ≡ size_of_enum enums.now text.now) }
{
    let name = name_of_text(alloc, text)?;
    Ok(size_of_named(enums, &name))
}

fn size_of_named(enums: &[EnumSize], name: &NameRead) -> u8
    ensures { result ≡ size_of_named enums.now name.now }
{
    for one in enums {
        if names(&one.name, name) {
            return one.size;
        }
    }
    4
}

fn names(name: &TypeName, read: &NameRead) -> bool
    ensures { result ≡ names name.now read.now }
{
    match read {
        NameRead::Name(other) => same_name(name, other),
        NameRead::Other | NameRead::Malformed => false,
    }
}

fn same_name(one: &TypeName, other: &TypeName) -> bool
    ensures { result ≡ same_name one.now other.now }
{
    same_texts(one.path.as_slice(), other.path.as_slice()) && same_assembly(&one.asm, &other.asm)
}

fn same_assembly(one: &Option<Text>, other: &Option<Text>) -> bool
    ensures { result ≡ same_assembly one.now other.now }
{
    match (one, other) {
        (None, None) => true,
        (Some(one), Some(other)) => one.as_slice() == other.as_slice(),
        _ => false,
    }
}

fn same_texts(ones: &[Text], others: &[Text]) -> bool
    ensures { result ≡ pointwise bytes_eq ones.now others.now }
{
    if ones.len() != others.len() {
        return false;
    }
    for (i, one) in ones.iter().enumerate() {
        if one.as_slice() != others[i].as_slice() {
            return false;
        }
    }
    true
}

// What a text in UTF-8 names.
fn name_of_text(alloc: Global, text: &[u8]) -> Result<NameRead, NoMemory>
    ensures { IfOk result (λ name. name ≡ name_of_text text.now) }
{
    match str::from_utf8(text) {
        Ok(text) => {
            let letters = letters_of(alloc, text)?;
            let name = read_name(alloc, letters.as_slice())?;
            Ok(name)
        }
        Err(_) => Ok(NameRead::Malformed),
    }
}

fn letters_of(alloc: Global, text: &str) -> Result<Vec<Option<char>>, AllocError>
    ensures { IfOk result (λ v. v.items ≡ map (λ c. Some c) (chars text.now)) }
{
    text.chars().map(|c| Some(c)).collect(alloc)
}
