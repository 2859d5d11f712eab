//! Unsigned numbers as values.

ghost use Rattle.std.specs.Prelude.{◌≡◌, pos};
ghost use Rattle.rules.specs.step_rules.Integers.{number};

use il_base::cil_values::Value;
use machine_words::cil_stores::number;

/// The value of an integer type, by its element type, with the low bits of an unsigned number.
pub fn number_of_bits(to: u8, n: u64) -> Value
    ensures { result ≡ number to (pos n) }
{
    number(to, n.cast_signed())
}
