//! Arithmetic on 32-bit integers (III.3).

ghost use Rattle.std.specs.Prelude.{◌≡◌, ◌+◌, ◌*◌, ◌+ℤ◌, ◌-ℤ◌, ◌*ℤ◌};
ghost use Rattle.std.specs.Option.{option_map};
ghost use Rattle.std.specs.Int.{w32, cast_signed, cast_unsigned};
ghost use Rattle.rules.specs.step_rules.Numbers.{arithmetic, divided, divided_unsigned, exactly, exactly_unsigned, minus_unsigned, remainder, remainder_unsigned};
ghost use Rattle.machine_numbers.specs.cil_arithmetic.Answers.{answer_by, checked, or_overflow};

use crate::cil_arithmetic::answer::{Answer, or_overflow};
use il_base::core_table::CoreName;
use il_base::opcode;

/// `add.ovf` (III.3.2).
fn plus(a: i32, b: i32) -> Answer<i32>
    ensures { answer_by result ≡ exactly w32 (a +ℤ b) }
{
    or_overflow(a.checked_add(b))
}

/// `sub.ovf` (III.3.65).
fn minus(a: i32, b: i32) -> Answer<i32>
    ensures { answer_by result ≡ exactly w32 (a -ℤ b) }
{
    or_overflow(a.checked_sub(b))
}

/// `mul.ovf` (III.3.49).
fn times(a: i32, b: i32) -> Answer<i32>
    ensures { answer_by result ≡ exactly w32 (a *ℤ b) }
{
    or_overflow(a.checked_mul(b))
}

/// `div` (III.3.31). The least number by -1 overflows.
fn divided(a: i32, b: i32) -> Answer<i32>
    ensures { answer_by result ≡ divided w32 a b }
{
    if b == 0 {
        return Answer::Raises(CoreName::DivideByZeroException);
    }
    or_overflow(a.checked_div(b))
}

/// `rem` (III.3.55), which overflows where `div` does.
fn remainder(a: i32, b: i32) -> Answer<i32>
    ensures { answer_by result ≡ remainder w32 a b }
{
    if b == 0 {
        return Answer::Raises(CoreName::DivideByZeroException);
    }
    or_overflow(a.checked_rem(b))
}

/// The number with these bits, or OverflowException.
fn signed_or_overflow(n: Option<u32>) -> Answer<i32>
    ensures { result ≡ or_overflow (option_map (cast_signed w32) n) }
{
    match n {
        None => Answer::Raises(CoreName::OverflowException),
        Some(n) => Answer::Is(n.cast_signed()),
    }
}

/// `add.ovf.un` (III.3.2).
fn plus_unsigned(a: i32, b: i32) -> Answer<i32>
    ensures { answer_by result ≡ exactly_unsigned w32 (cast_unsigned w32 a + cast_unsigned w32 b) }
{
    signed_or_overflow(a.cast_unsigned().checked_add(b.cast_unsigned()))
}

/// `sub.ovf.un` (III.3.65).
fn minus_unsigned(a: i32, b: i32) -> Answer<i32>
    ensures { answer_by result ≡ minus_unsigned w32 (cast_unsigned w32 a) (cast_unsigned w32 b) }
{
    signed_or_overflow(a.cast_unsigned().checked_sub(b.cast_unsigned()))
}

/// `mul.ovf.un` (III.3.49).
fn times_unsigned(a: i32, b: i32) -> Answer<i32>
    ensures { answer_by result ≡ exactly_unsigned w32 (cast_unsigned w32 a * cast_unsigned w32 b) }
{
    signed_or_overflow(a.cast_unsigned().checked_mul(b.cast_unsigned()))
}

/// `div.un` (III.3.32).
fn divided_unsigned(a: i32, b: i32) -> Answer<i32>
    ensures { answer_by result ≡ divided_unsigned w32 a b }
{
    if b == 0 {
        return Answer::Raises(CoreName::DivideByZeroException);
    }
    Answer::Is((a.cast_unsigned() / b.cast_unsigned()).cast_signed())
}

/// `rem.un` (III.3.56).
fn remainder_unsigned(a: i32, b: i32) -> Answer<i32>
    ensures { answer_by result ≡ remainder_unsigned w32 a b }
{
    if b == 0 {
        return Answer::Raises(CoreName::DivideByZeroException);
    }
    Answer::Is((a.cast_unsigned() % b.cast_unsigned()).cast_signed())
}

/// An arithmetic instruction that is checked for overflow. None for any other opcode.
fn checked(code: u16, a: i32, b: i32) -> Option<Answer<i32>>
    ensures { option_map answer_by result ≡ checked code w32 a b }
{
    match code {
        opcode::ADD_OVF => Some(plus(a, b)),
        opcode::ADD_OVF_UN => Some(plus_unsigned(a, b)),
        opcode::SUB_OVF => Some(minus(a, b)),
        opcode::SUB_OVF_UN => Some(minus_unsigned(a, b)),
        opcode::MUL_OVF => Some(times(a, b)),
        opcode::MUL_OVF_UN => Some(times_unsigned(a, b)),
        _ => None,
    }
}

/// An arithmetic instruction on two numbers. None for an opcode that isn't one.
#[tactic(auto, unfolding(rules::specs::step_rules::Numbers::arithmetic))]
pub fn arithmetic32(code: u16, a: i32, b: i32) -> Option<Answer<i32>>
    ensures { option_map answer_by result ≡ arithmetic code w32 a b }
{
    match code {
        opcode::ADD => Some(Answer::Is(a.wrapping_add(b))),
        opcode::SUB => Some(Answer::Is(a.wrapping_sub(b))),
        opcode::MUL => Some(Answer::Is(a.wrapping_mul(b))),
        opcode::DIV => Some(divided(a, b)),
        opcode::DIV_UN => Some(divided_unsigned(a, b)),
        opcode::REM => Some(remainder(a, b)),
        opcode::REM_UN => Some(remainder_unsigned(a, b)),
        opcode::AND => Some(Answer::Is(a & b)),
        opcode::OR => Some(Answer::Is(a | b)),
        opcode::XOR => Some(Answer::Is(a ^ b)),
        _ => checked(code, a, b),
    }
}
