ghost use Rattle.std.specs.Prelude.{◌≡◌, ◌<◌, ◌≤◌, ◌∷◌, ◌++◌, length, position, IfOk, IfSome, OnOk, encode_utf8, true, false, Some};
ghost use Rattle.std.specs.Bool.{OnTrue};
ghost use Rattle.std.specs.Char.Utf16.{utf16_chars, is_high_surrogate, is_low_surrogate, surrogate_pair_char, lone_unit_char};
ghost use Rattle.std.specs.Option.{option_map};
ghost use Rattle.attr_blobs.specs.TypeNames.{mark, marks, begins_pair, begins_taken, is_letter, is_sign, cut, text_of, is_blank, without_front, without_end, letter_of};

use il_base::{NoMemory, Text};
use std::alloc::Global;

/// A character of a text, with whether a `\` before it takes it as itself.
#[derive(Clone, Copy)]
pub struct Mark {
    /// None for a lone surrogate.
    pub letter: Option<char>,
    pub taken: bool,
}

/// The characters of a text in UTF-16, None for each lone surrogate.
pub fn utf16_letters(alloc: Global, units: &[u16]) -> Result<Vec<Option<char>>, NoMemory>
    ensures { IfOk result (λ v. v.items ≡ utf16_chars units.now) }
{
    let mut letters = Vec::new(alloc);
    let mut rest = units;
    while !rest.is_empty() {
        if begins_pair(rest) {
            letters.push(pair(rest[0], rest[1]))?;
            rest = &rest[2..];
        } else {
            letters.push(lone(rest[0]))?;
            rest = &rest[1..];
        }
    }
    Ok(letters)
}

fn begins_pair(units: &[u16]) -> bool
    ensures pair { result ≡ begins_pair units.now }
    ensures within { OnTrue result (1 < length units.now) }
{
    match units {
        [high, low, ..] => is_high(*high) && is_low(*low),
        _ => false,
    }
}

fn is_high(unit: u16) -> bool
    ensures { result ≡ is_high_surrogate unit }
{
    0xd800 <= unit && unit < 0xdc00
}

fn is_low(unit: u16) -> bool
    ensures { result ≡ is_low_surrogate unit }
{
    0xdc00 <= unit && unit < 0xe000
}

fn pair(high: u16, low: u16) -> Option<char>
    requires high { is_high_surrogate high ≡ true }
    requires low { is_low_surrogate low ≡ true }
    ensures { result ≡ Some (surrogate_pair_char high low) }
{
    let high = u32::from(high) - 0xd800;
    let low = u32::from(low) - 0xdc00;
    char::from_u32(0x1_0000 + high * 0x400 + low)
}

fn lone(unit: u16) -> Option<char>
    ensures { result ≡ lone_unit_char unit }
{
    char::from_u32(u32::from(unit))
}

/// The marks of these characters.
pub fn marks_of(alloc: Global, letters: &[Option<char>]) -> Result<Vec<Mark>, NoMemory>
    ensures { IfOk result (λ v. v.items ≡ marks letters.now) }
{
    let mut found = Vec::new(alloc);
    let mut rest = letters;
    while !rest.is_empty() {
        if begins_taken(rest) {
            found.push(taken(rest[1]))?;
            rest = &rest[2..];
        } else {
            found.push(plain(rest[0]))?;
            rest = &rest[1..];
        }
    }
    Ok(found)
}

fn begins_taken(letters: &[Option<char>]) -> bool
    ensures taken { result ≡ begins_taken letters.now }
    ensures within { OnTrue result (1 < length letters.now) }
{
    match letters {
        [first, _, ..] => is_letter('\\', *first),
        _ => false,
    }
}

fn taken(letter: Option<char>) -> Mark
    ensures { result ≡ mark letter true }
{
    Mark {
        letter,
        taken: true,
    }
}

fn plain(letter: Option<char>) -> Mark
    ensures { result ≡ mark letter false }
{
    Mark {
        letter,
        taken: false,
    }
}

fn is_letter(code: char, letter: Option<char>) -> bool
    ensures { result ≡ is_letter code letter }
{
    match letter {
        Some(c) => c == code,
        None => false,
    }
}

/// Whether the character stands as a sign of its own.
pub fn is_sign(code: char, mark: &Mark) -> bool
    ensures { result ≡ is_sign code mark.now }
{
    !mark.taken && is_letter(code, mark.letter)
}

/// What stands before the first sign of this kind, and what after it, if there is one.
pub fn cut(marks: &[Mark], code: char) -> (&[Mark], Option<&[Mark]>)
    ensures front { result.0.now ≡ (cut code marks.now).0 }
    ensures behind { option_map (λ r. r.now) result.1 ≡ (cut code marks.now).1 }
    ensures shorter { IfSome result.1 (λ r. length r.now < length marks.now) }
{
    match place_of(marks, code) {
        Some(at) => (&marks[..at], Some(&marks[at + 1..])),
        None => (marks, None),
    }
}

fn place_of(marks: &[Mark], code: char) -> Option<usize>
    ensures place { result ≡ position (is_sign code) marks.now }
    ensures within { IfSome result (λ at. at < length marks.now) }
{
    marks.iter().position(|mark| is_sign(code, mark))
}

/// The marks without the blanks at both ends.
pub fn trimmed(marks: &[Mark]) -> &[Mark]
    ensures { result.now ≡ without_end (without_front marks.now) }
{
    without_end(without_front(marks))
}

fn is_blank(mark: &Mark) -> bool
    ensures { result ≡ is_blank mark.now }
{
    is_sign(' ', mark) || is_sign('\t', mark)
}

fn without_front(marks: &[Mark]) -> &[Mark]
    ensures { result.now ≡ without_front marks.now }
{
    let mut rest = marks;
    while !rest.is_empty() && is_blank(&rest[0]) {
        rest = &rest[1..];
    }
    rest
}

fn without_end(marks: &[Mark]) -> &[Mark]
    ensures { result.now ≡ without_end marks.now }
{
    let mut n = marks.len();
    while n > 0 {
        if !is_blank(&marks[n - 1]) {
            return &marks[..n];
        }
        n -= 1;
    }
    &marks[..0]
}

/// The text of the marks in UTF-8, None where one is a lone surrogate or a `\` at the end.
pub fn text_of(alloc: Global, marks: &[Mark]) -> Result<Option<Text>, NoMemory>
    ensures { IfOk result (λ t. t ≡ text_of marks.now) }
{
    let mut text = Text::new(alloc);
    for mark in marks {
        match letter_of(mark) {
            Some(letter) => append(&mut text, letter)?,
            None => return Ok(None),
        }
    }
    Ok(Some(text))
}

fn letter_of(mark: &Mark) -> Option<char>
    ensures { result ≡ letter_of mark.now }
{
    if is_sign('\\', mark) {
        None
    } else {
        mark.letter
    }
}

fn append(text: &mut Text, letter: char) -> Result<(), NoMemory>
    ensures { OnOk result (text.new ≡ text.old ++ encode_utf8 letter) }
{
    let mut bytes = [0u8; 4];
    let encoded = letter.encode_utf8(&mut bytes);
    text.extend_from_slice(encoded.as_bytes())?;
    Ok(())
}
