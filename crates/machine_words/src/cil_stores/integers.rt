//! Integers of a type, by its element type (II.23.1.16).

ghost use Rattle.std.specs.Prelude.{◌≡◌, false, ◌||◌};
ghost use Rattle.std.specs.Int.{w8, w16, w32};
ghost use Rattle.rules.specs.step_rules.Integers.{low, wrap, cut, is_long, is_native, number, width_of, worth, narrowed, held_number, shown, same_width};

use il_base::cil_values::Value;
use il_base::element;

/// How many bytes a number of the type has.
#[tactic(auto, unfolding(rules::specs::step_rules::Integers::width_of))]
pub fn width_of(code: u8) -> u32
    ensures { result ≡ width_of code }
{
    match code {
        element::BOOLEAN | element::I1 | element::U1 => 1,
        element::CHAR | element::I2 | element::U2 => 2,
        element::I8 | element::U8 | element::I | element::U => 8,
        _ => 4,
    }
}

fn is_native(code: u8) -> bool
    ensures { result ≡ is_native code }
{
    code == element::I || code == element::U
}

fn is_long(code: u8) -> bool
    ensures { result ≡ is_long code }
{
    code == element::I8 || code == element::U8
}

/// The lowest 8 bits.
#[tactic(auto, unfolding(rules::specs::step_rules::Integers::low))]
fn low_byte(n: i64) -> u8
    ensures { result ≡ low w8 n }
{
    n.rem_euclid(0x100) as u8
}

/// The lowest 16 bits.
#[tactic(auto, unfolding(rules::specs::step_rules::Integers::low))]
fn low_half(n: i64) -> u16
    ensures { result ≡ low w16 n }
{
    n.rem_euclid(0x1_0000) as u16
}

/// The lowest 32 bits.
#[tactic(auto, unfolding(rules::specs::step_rules::Integers::low))]
fn low_word(n: i64) -> u32
    ensures { result ≡ low w32 n }
{
    n.rem_euclid(0x1_0000_0000) as u32
}

/// The number with these lowest 32 bits, with a sign.
#[tactic(auto, using(crate::proofs::lemmas::cil_stores::Wrapping::wrap_word))]
pub fn wrapped(n: i64) -> i32
    ensures { result ≡ wrap w32 n }
{
    low_word(n).cast_signed()
}

/// A number of a type that has at most 32 bits, as a cell of the type keeps it.
#[tactic(auto, using(crate::proofs::lemmas::cil_stores::Wrapping::wrap_byte, crate::proofs::lemmas::cil_stores::Wrapping::wrap_half), unfolding(rules::specs::step_rules::Integers::cut))]
fn cut_short(code: u8, n: i64) -> i32
    requires { (is_long code || is_native code) ≡ false }
    ensures { result ≡ cut code n }
{
    match code {
        element::I1 => low_byte(n).cast_signed() as i32,
        element::BOOLEAN | element::U1 => low_byte(n) as i32,
        element::I2 => low_half(n).cast_signed() as i32,
        element::CHAR | element::U2 => low_half(n) as i32,
        _ => wrapped(n),
    }
}

/// The number as a cell of the type keeps it: short ones are cut, and then extended by their sign or by zeros.
#[tactic(auto, unfolding(rules::specs::step_rules::Integers::cut, rules::specs::step_rules::Integers::low))]
pub fn cut(code: u8, n: i64) -> i64
    ensures { result ≡ cut code n }
{
    if is_long(code) || is_native(code) {
        return n;
    }
    cut_short(code, n) as i64
}

/// A number of the type on the evaluation stack.
#[tactic(auto, unfolding(rules::specs::step_rules::Integers::number))]
pub fn number(code: u8, n: i64) -> Value
    ensures { result ≡ number code n }
{
    if is_native(code) {
        Value::Native(cut(code, n))
    } else if is_long(code) {
        Value::I8(cut(code, n))
    } else {
        Value::I4(cut_short(code, n))
    }
}

/// What a value is worth for a slot of the type. None where it doesn't fit: an int64 fits a 64-bit slot alone, every other
/// number all others.
#[tactic(auto, unfolding(rules::specs::step_rules::Integers::worth))]
pub fn worth(code: u8, v: &Value) -> Option<i64>
    ensures { result ≡ worth code v.now }
{
    match v {
        Value::I4(n) => {
            if is_long(code) {
                None
            } else if code == element::U {
                Some(n.cast_unsigned() as i64)
            } else {
                Some(*n as i64)
            }
        }
        Value::Native(n) => { if is_long(code) { None } else { Some(*n) } }
        Value::I8(n) => { if is_long(code) { Some(*n) } else { None } }
        Value::Null => None,
        Value::Object(_) => None,
        Value::Pointer(_) => None,
        Value::Struct(_, _) => None,
        Value::Handle(_) => None,
        Value::FieldHandle(_) => None,
    }
}

/// The value as a slot of the type keeps it.
pub fn narrowed(code: u8, v: &Value) -> Option<Value>
    ensures { result ≡ narrowed code v.now }
{
    match worth(code, v) {
        Some(n) => Some(number(code, n)),
        None => None,
    }
}

/// The number that a cell of an integer type holds.
#[tactic(auto, unfolding(rules::specs::step_rules::Integers::held_number))]
pub fn held_number(v: &Value) -> Option<i64>
    ensures { result ≡ held_number v.now }
{
    match v {
        Value::I4(n) => Some(*n as i64),
        Value::I8(n) => Some(*n),
        Value::Native(n) => Some(*n),
        Value::Null => None,
        Value::Object(_) => None,
        Value::Pointer(_) => None,
        Value::Struct(_, _) => None,
        Value::Handle(_) => None,
        Value::FieldHandle(_) => None,
    }
}

/// An integer as a load of a type gives it, which has the width of the cell's.
#[tactic(auto, unfolding(rules::specs::step_rules::Integers::shown))]
pub fn shown(code: u8, v: &Value) -> Option<Value>
    ensures { result ≡ shown code v.now }
{
    match held_number(v) {
        Some(n) => Some(number(code, n)),
        None => None,
    }
}

/// Whether two integer types have the same width.
pub fn same_width(a: u8, b: u8) -> bool
    ensures { result ≡ same_width a b }
{
    width_of(a) == width_of(b)
}
