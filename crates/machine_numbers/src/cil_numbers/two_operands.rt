//! Instructions on two operands, as functions of these.

ghost use Rattle.std.specs.Prelude.{◌≡◌};
ghost use Rattle.std.specs.Option.{option_map, option_and_then};
ghost use Rattle.std.specs.Int.{w32, w64};
ghost use Rattle.rules.specs.step_rules.Comparisons.{numbers};
ghost use Rattle.rules.specs.step_rules.Numbers.{arithmetic};
ghost use Rattle.machine_numbers.specs.cil_numbers.Outcomes.{binary_of, compared_to, computed, shifted_by};
ghost use Rattle.machine_numbers.specs.cil_arithmetic.Outcomes.{outcome_by};
ghost use Rattle.machine_numbers.specs.cil_compare.Tests.{test_by};
ghost use Rattle.il_base.specs.declared.cil_values.value.Value.TheVariants as value;

use crate::cil_arithmetic::{Answer, Outcome, arithmetic32, arithmetic64};
use crate::cil_compare::{Test, is_true};
use crate::cil_numbers::comparisons::comparison;
use crate::cil_numbers::shifts::{is_shift, shift, shift_count};
use il_base::cil_values::Value;

fn of_int32(code: u16, a: i32, b: i32) -> Option<Outcome>
    ensures { result ≡ option_map (outcome_by (λ n. value.I4 n)) (arithmetic code w32 a b) }
{
    match arithmetic32(code, a, b) {
        None => None,
        Some(Answer::Is(n)) => Some(Outcome::Gives(Value::I4(n))),
        Some(Answer::Raises(name)) => Some(Outcome::Raises(name)),
    }
}

fn of_int64(code: u16, a: i64, b: i64) -> Option<Outcome>
    ensures { result ≡ option_map (outcome_by (λ n. value.I8 n)) (arithmetic code w64 a b) }
{
    match arithmetic64(code, a, b) {
        None => None,
        Some(Answer::Is(n)) => Some(Outcome::Gives(Value::I8(n))),
        Some(Answer::Raises(name)) => Some(Outcome::Raises(name)),
    }
}

fn of_native(code: u16, a: i64, b: i64) -> Option<Outcome>
    ensures { result ≡ option_map (outcome_by (λ n. value.Native n)) (arithmetic code w64 a b) }
{
    match arithmetic64(code, a, b) {
        None => None,
        Some(Answer::Is(n)) => Some(Outcome::Gives(Value::Native(n))),
        Some(Answer::Raises(name)) => Some(Outcome::Raises(name)),
    }
}

/// Arithmetic on two numbers of one kind. An int32 beside a native integer is extended by its sign.
#[tactic(auto, unfolding(rules::specs::step_rules::Comparisons::numbers))]
fn of_numbers(code: u16, a: &Value, b: &Value) -> Option<Outcome>
    ensures { result ≡ option_and_then (computed code) (numbers a.now b.now) }
{
    match (a, b) {
        (Value::I4(a), Value::I4(b)) => of_int32(code, *a, *b),
        (Value::I4(a), Value::Native(b)) => of_native(code, i64::from(*a), *b),
        (Value::Native(a), Value::I4(b)) => of_native(code, *a, i64::from(*b)),
        (Value::Native(a), Value::Native(b)) => of_native(code, *a, *b),
        (Value::I8(a), Value::I8(b)) => of_int64(code, *a, *b),
        _ => None,
    }
}

fn of_shift(code: u16, a: &Value, b: &Value) -> Option<Outcome>
    ensures { result ≡ shifted_by code a.now b.now }
{
    let Some(count) = shift_count(b) else {
        return None;
    };
    match shift(code, a, count) {
        None => None,
        Some(v) => Some(Outcome::Gives(v)),
    }
}

/// 1 where the test is true, else 0.
fn of_test(t: Test, a: &Value, b: &Value) -> Option<Outcome>
    ensures { result ≡ compared_to a.now b.now (test_by t) }
{
    match is_true(t, a, b) {
        None => None,
        Some(yes) => Some(Outcome::Gives(Value::I4(i32::from(yes)))),
    }
}

/// What an instruction on the lower operand and the upper one comes to. None where it doesn't take them.
pub(crate) fn binary_of(code: u16, a: &Value, b: &Value) -> Option<Outcome>
    ensures { result ≡ binary_of code a.now b.now }
{
    match comparison(code) {
        Some(t) => of_test(t, a, b),
        None => {
            if is_shift(code) {
                of_shift(code, a, b)
            } else {
                of_numbers(code, a, b)
            }
        }
    }
}
