//! Comparisons of two values (III.1.5 table III.4).

ghost use Rattle.std.specs.Prelude.{◌≡◌};
ghost use Rattle.rules.specs.step_rules.Comparisons.{numbers, compared, compares_compared, test};
ghost use Rattle.machine_numbers.specs.cil_compare.Tests.{numbers_test, test_by};

use crate::cil_compare::places::{compared, compares_references};
use crate::cil_compare::test::{Test, compares32, compares64};
use il_base::cil_values::Value;

/// A test of two numbers of one kind. An int32 beside a native integer is extended by its sign.
#[tactic(auto, unfolding(rules::specs::step_rules::Comparisons::numbers))]
fn numbers_test(t: Test, a: &Value, b: &Value) -> Option<bool>
    ensures { result ≡ numbers_test t (numbers a.now b.now) }
{
    match (a, b) {
        (Value::I4(a), Value::I4(b)) => Some(compares32(t, *a, *b)),
        (Value::I4(a), Value::Native(b)) => Some(compares64(t, i64::from(*a), *b)),
        (Value::Native(a), Value::I4(b)) => Some(compares64(t, *a, i64::from(*b))),
        (Value::Native(a), Value::Native(b)) => Some(compares64(t, *a, *b)),
        (Value::I8(a), Value::I8(b)) => Some(compares64(t, *a, *b)),
        _ => None,
    }
}

/// A test of two references or pointers.
fn places_test(t: Test, a: &Value, b: &Value) -> Option<bool>
    ensures { result ≡ compares_compared (test_by t) (compared a.now b.now) }
{
    match compared(a, b) {
        None => None,
        Some(c) => compares_references(t, c),
    }
}

/// Whether a test is true of the lower and the upper operand. None where their kinds don't allow it.
#[tactic(auto, using(crate::proofs::lemmas::cil_compare::Comparing::is_test))]
pub fn is_true(t: Test, a: &Value, b: &Value) -> Option<bool>
    ensures { result ≡ test (test_by t) a.now b.now }
{
    match numbers_test(t, a, b) {
        Some(yes) => Some(yes),
        None => places_test(t, a, b),
    }
}
