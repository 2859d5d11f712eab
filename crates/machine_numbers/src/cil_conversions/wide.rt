//! Numbers that are converted (III.3.27 to III.3.29).

ghost use Rattle.std.specs.Prelude.{◌≡◌, pos, true, false};
ghost use Rattle.std.specs.Option.{option_map};
ghost use Rattle.rules.specs.step_rules.Integers.{number, width_of};
ghost use Rattle.rules.specs.step_rules.Numbers.{has_number, is_unsigned_type, operand_of, read_as};
ghost use Rattle.std.specs.Int.{w64};
ghost use Rattle.machine_numbers.specs.cil_conversions.Conversions.{bytes, has_in, number_by};

use crate::cil_conversions::bits::number_of_bits;
use il_base::cil_values::Value;
use il_base::element;
use machine_words::cil_stores::number;

/// A number of 64 bits, signed or unsigned.
#[derive(Clone, Copy)]
pub(crate) enum Wide {
    Signed(i64),
    Unsigned(u64),
}

/// How many bytes an integer type has.
#[derive(Clone, Copy)]
pub(crate) enum Size {
    One,
    Two,
    Four,
    Eight,
}

/// How many bytes an integer type has, by its element type.
#[tactic(auto, unfolding(rules::specs::step_rules::Integers::width_of))]
fn size_of(code: u8) -> Size
    ensures { bytes result ≡ width_of code }
{
    match code {
        element::BOOLEAN | element::I1 | element::U1 => Size::One,
        element::CHAR | element::I2 | element::U2 => Size::Two,
        element::I8 | element::U8 | element::I | element::U => Size::Eight,
        _ => Size::Four,
    }
}

/// Whether an element type is an unsigned integer.
fn is_unsigned_type(code: u8) -> bool
    ensures { result ≡ is_unsigned_type code }
{
    code == element::U1
        || code == element::U2
        || code == element::U4
        || code == element::U8
        || code == element::U
}

fn has_signed(size: Size, n: i64) -> bool
    ensures { result ≡ has_in false (bytes size) n }
{
    match size {
        Size::One => -0x80 <= n && n < 0x80,
        Size::Two => -0x8000 <= n && n < 0x8000,
        Size::Four => -0x8000_0000 <= n && n < 0x8000_0000,
        Size::Eight => true,
    }
}

fn has_natural(size: Size, n: i64) -> bool
    ensures { result ≡ has_in true (bytes size) n }
{
    match size {
        Size::One => 0 <= n && n < 0x100,
        Size::Two => 0 <= n && n < 0x1_0000,
        Size::Four => 0 <= n && n < 0x1_0000_0000,
        Size::Eight => 0 <= n,
    }
}

fn has_in_half(size: Size, n: u64) -> bool
    ensures { result ≡ has_in false (bytes size) (pos n) }
{
    match size {
        Size::One => n < 0x80,
        Size::Two => n < 0x8000,
        Size::Four => n < 0x8000_0000,
        Size::Eight => n < 0x8000_0000_0000_0000,
    }
}

fn has_in_whole(size: Size, n: u64) -> bool
    ensures { result ≡ has_in true (bytes size) (pos n) }
{
    match size {
        Size::One => n < 0x100,
        Size::Two => n < 0x1_0000,
        Size::Four => n < 0x1_0000_0000,
        Size::Eight => true,
    }
}

impl Wide {
    /// Whether an integer type has this number.
    #[tactic(auto, using(crate::proofs::lemmas::cil_conversions::Conversions::has_by), unfolding(rules::specs::step_rules::Numbers::has_number))]
    pub fn fits(self, to: u8) -> bool
        ensures { result ≡ has_number to (number_by self) }
    {
        let size = size_of(to);
        let natural = is_unsigned_type(to);
        match self {
            Wide::Signed(n) => {
                if natural {
                    has_natural(size, n)
                } else {
                    has_signed(size, n)
                }
            }
            Wide::Unsigned(n) => {
                if natural {
                    has_in_whole(size, n)
                } else {
                    has_in_half(size, n)
                }
            }
        }
    }

    /// The value of an integer type with the low bits of this number.
    pub fn cut(self, to: u8) -> Value
        ensures { result ≡ number to (number_by self) }
    {
        match self {
            Wide::Signed(n) => number(to, n),
            Wide::Unsigned(n) => number_of_bits(to, n),
        }
    }
}

fn read_as(unsigned: bool, n: i64) -> Wide
    ensures { number_by result ≡ read_as unsigned w64 n }
{
    if unsigned {
        Wide::Unsigned(n.cast_unsigned())
    } else {
        Wide::Signed(n)
    }
}

/// The number that is converted. None for what is no number.
#[tactic(auto, unfolding(rules::specs::step_rules::Numbers::operand_of))]
pub(crate) fn operand_of(unsigned: bool, v: &Value) -> Option<Wide>
    ensures { option_map number_by result ≡ operand_of unsigned v.now }
{
    match v {
        Value::I4(n) => Some(if unsigned {
            Wide::Unsigned(u64::from(n.cast_unsigned()))
        } else {
            Wide::Signed(i64::from(*n))
        }),
        Value::I8(n) => Some(read_as(unsigned, *n)),
        Value::Native(n) => Some(read_as(unsigned, *n)),
        _ => None,
    }
}
