//! Characters of UTF-8 (Unicode 3.9, table 3-7).

ghost use Rattle.std.specs.Prelude.{◌≡◌, ◌-◌, ◌≤◌};
ghost use Rattle.std.specs.Option.{option_map};
ghost use Rattle.rules.specs.step_rules.Input.{between, char_at, four_at, is_second, is_tail, second_high, second_low, three_at, two_at};
ghost use Rattle.cil_input.specs.Characters.{decoded_by};

use crate::character::Character;

/// The first byte that isn't a character alone.
const ASCII_END: u8 = 0x80;
/// The least and the greatest byte after the first of a sequence.
const TAIL: u8 = 0x80;

const LAST_TAIL: u8 = 0xbf;
/// The first bytes of sequences of two, three and four bytes, and what they are counted from.
const TWO: u8 = 0xc2;

const LAST_TWO: u8 = 0xdf;

const TWO_BASE: u8 = 0xc0;

const THREE: u8 = 0xe0;

const LAST_THREE: u8 = 0xef;

const FOUR: u8 = 0xf0;

const LAST_FOUR: u8 = 0xf4;
/// First bytes after which the second byte is narrower: the surrogates', and that of U+10FFFF.
const SURROGATES: u8 = 0xed;

const LAST_BEFORE_SURROGATES: u8 = 0x9f;

const LAST_BEFORE_END: u8 = 0x8f;
/// No longer spelling than is needed.
const LEAST_OF_THREE: u8 = 0xa0;

const LEAST_OF_FOUR: u8 = 0x90;

fn between(low: u8, high: u8, b: u8) -> bool
    ensures { result ≡ between low high b }
{
    low <= b && b <= high
}

fn is_tail(b: u8) -> bool
    ensures { result ≡ is_tail b }
{
    between(TAIL, LAST_TAIL, b)
}

fn second_low(b: u8) -> u8
    ensures { result ≡ second_low b }
{
    if b == THREE {
        LEAST_OF_THREE
    } else if b == FOUR {
        LEAST_OF_FOUR
    } else {
        TAIL
    }
}

fn second_high(b: u8) -> u8
    ensures { result ≡ second_high b }
{
    if b == SURROGATES {
        LAST_BEFORE_SURROGATES
    } else if b == LAST_FOUR {
        LAST_BEFORE_END
    } else {
        LAST_TAIL
    }
}

/// Whether a byte can follow the first byte of a sequence of three or four.
fn is_second(b: u8, c: u8) -> bool
    ensures { result ≡ is_second b c }
{
    between(second_low(b), second_high(b), c)
}

/// How far a byte is above another, 0 for one below it.
fn above(b: u8, base: u8) -> u32
    ensures value { result ≡ b - base }
    ensures fits { result ≤ 255 }
{
    b.saturating_sub(base) as u32
}

fn two_at(b: u8, rest: &[u8]) -> Option<Character>
    ensures { option_map decoded_by result ≡ two_at b rest.now }
{
    match rest {
        [] => None,
        [c, ..] => {
            if !is_tail(*c) {
                return None;
            }
            let code = above(b, TWO_BASE) * 64 + above(*c, TAIL);
            Some(Character { code, more: 1 })
        }
    }
}

fn three_at(b: u8, rest: &[u8]) -> Option<Character>
    requires { b ≤ 239 }
    ensures { option_map decoded_by result ≡ three_at b rest.now }
{
    match rest {
        [] => None,
        [_] => None,
        [c, d, ..] => {
            if !(is_second(b, *c) && is_tail(*d)) {
                return None;
            }
            let code = above(b, THREE) * 4096 + above(*c, TAIL) * 64 + above(*d, TAIL);
            Some(Character { code, more: 2 })
        }
    }
}

fn four_at(b: u8, rest: &[u8]) -> Option<Character>
    requires { b ≤ 244 }
    ensures { option_map decoded_by result ≡ four_at b rest.now }
{
    match rest {
        [] => None,
        [_] => None,
        [_, _] => None,
        [c, d, e, ..] => {
            if !(is_second(b, *c) && is_tail(*d) && is_tail(*e)) {
                return None;
            }
            let high = above(b, FOUR) * 262144 + above(*c, TAIL) * 4096;
            let code = high + above(*d, TAIL) * 64 + above(*e, TAIL);
            Some(Character { code, more: 3 })
        }
    }
}

/// The character whose well-formed sequence begins with a byte, with the bytes after it. None where there is none.
#[tactic(auto, unfolding(rules::specs::step_rules::Input::char_at))]
pub(crate) fn char_at(b: u8, rest: &[u8]) -> Option<Character>
    ensures { option_map decoded_by result ≡ char_at b rest.now }
{
    if b < ASCII_END {
        let code = b as u32;
        return Some(Character { code, more: 0 });
    }
    if between(TWO, LAST_TWO, b) {
        return two_at(b, rest);
    }
    if between(THREE, LAST_THREE, b) {
        return three_at(b, rest);
    }
    if between(FOUR, LAST_FOUR, b) {
        return four_at(b, rest);
    }
    None
}
