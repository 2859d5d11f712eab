//! What an operand is.

ghost use Rattle.std.specs.Prelude.{◌≡◌, true, Some, None, if◌then◌else◌};
ghost use Rattle.std.specs.Int.{w32, w64};
ghost use Rattle.rules.specs.step_rules.Integers.{fits_signed};
ghost use Rattle.machine_numbers.specs.cil_slots.Operands.{number_in, slot_in};

use il_base::cil_values::Use;

/// The constant. None for any other operand.
pub(crate) fn number_in(operand: &Use) -> Option<i64>
    ensures { result ≡ number_in operand.now }
{
    match operand {
        Use::Number(n) => Some(*n),
        _ => None,
    }
}

/// The number of an argument or a local. None for any other operand.
pub(crate) fn slot_in(operand: &Use) -> Option<u32>
    ensures { result ≡ slot_in operand.now }
{
    match operand {
        Use::Slot(k) => Some(*k),
        _ => None,
    }
}

/// The constant, if it has 32 bits.
#[tactic(auto, unfolding(rules::specs::step_rules::Integers::fits_signed))]
pub(crate) fn int32_of(n: i64) -> Option<i32>
    ensures { result ≡ (if fits_signed w32 n then Some n else None) }
{
    if n < -2_147_483_648 || n > 2_147_483_647 {
        return None;
    }
    Some(n as i32)
}

/// The constant, which always has 64 bits.
#[tactic(auto, unfolding(rules::specs::step_rules::Integers::fits_signed))]
pub(crate) fn int64_of(n: i64) -> i64
    ensures value { result ≡ n }
    ensures fits { fits_signed w64 n ≡ true }
{
    n
}
