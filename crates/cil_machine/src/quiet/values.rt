//! Values without parts, and what simple instructions make of them.

ghost use Rattle.std.specs.Prelude.{◌≡◌, Some, IfSome};
ghost use Rattle.std.specs.Option.{option_and_then};
ghost use Rattle.il_base.specs.declared.cil_values.value.Value.TheVariants as value;
ghost use Rattle.rules.specs.step_rules.Branches.{test_of, truth};
ghost use Rattle.rules.specs.step_rules.Comparisons.{test};
ghost use Rattle.rules.specs.step_rules.Numbers.{comparison};
ghost use Rattle.rules.specs.step_rules.Stores.{fits_reference};
ghost use Rattle.machine_numbers.specs.cil_arithmetic.Outcomes.{gives};
ghost use Rattle.machine_numbers.specs.cil_conversions.Outcomes.{convert_of};
ghost use Rattle.machine_numbers.specs.cil_numbers.Outcomes.{binary_of};

use il_base::cil_values::Value;
use il_base::opcode;
use machine_numbers::cil_arithmetic::Outcome;
use machine_numbers::cil_conversions::convert_of;

/// A copy of a number or of a reference to an object. None for any other value.
#[inline(always)]
pub(crate) fn plain(v: &Value) -> Option<Value>
    ensures { IfSome result (λ w. w ≡ v.now) }
{
    match v {
        Value::Null => Some(Value::Null),
        Value::I4(n) => Some(Value::I4(*n)),
        Value::I8(n) => Some(Value::I8(*n)),
        Value::Native(n) => Some(Value::Native(*n)),
        Value::Object(at) => Some(Value::Object(*at)),
        _ => None,
    }
}

/// Null or a reference to an object, as a slot of a reference type keeps it. None for any other value.
#[inline(always)]
pub(crate) fn plain_reference(v: &Value) -> Option<Value>
    ensures { IfSome result (λ w. fits_reference v.now ≡ Some w) }
{
    match v {
        Value::Null => Some(Value::Null),
        Value::Object(at) => Some(Value::Object(*at)),
        _ => None,
    }
}

/// Whether a comparison of two int32 is true.
#[tactic(auto, unfolding(rules::specs::step_rules::Numbers::comparison, crate::specs::Opened::compared))]
fn compared32(code: u16, a: i32, b: i32) -> Option<bool>
    ensures { IfSome result (λ yes. option_and_then (λ t. test t (value.I4 a) (value.I4 b)) (comparison code) ≡ Some yes) }
{
    match code {
        opcode::CEQ => Some(a == b),
        opcode::CGT => Some(b < a),
        opcode::CGT_UN => Some(b.cast_unsigned() < a.cast_unsigned()),
        opcode::CLT => Some(a < b),
        opcode::CLT_UN => Some(a.cast_unsigned() < b.cast_unsigned()),
        _ => None,
    }
}

/// What a comparison of two int32 gives.
fn truth32(code: u16, a: i32, b: i32) -> Option<i32>
    ensures { IfSome result (λ n. binary_of code (value.I4 a) (value.I4 b) ≡ Some (gives (value.I4 n))) }
{
    match compared32(code, a, b) {
        None => None,
        Some(yes) => Some(i32::from(yes)),
    }
}

/// What a shift of an int32 by an int32 gives.
#[tactic(auto, unfolding(rules::specs::step_rules::Numbers::comparison, rules::specs::step_rules::Numbers::shift, rules::specs::step_rules::Numbers::shift_count, rules::specs::step_rules::Numbers::shifted))]
fn shifted32(code: u16, a: i32, b: i32) -> Option<i32>
    ensures { IfSome result (λ n. binary_of code (value.I4 a) (value.I4 b) ≡ Some (gives (value.I4 n))) }
{
    let k = b.cast_unsigned() % 32;
    match code {
        opcode::SHL => Some(a << k),
        opcode::SHR => Some(a >> k),
        opcode::SHR_UN => Some((a.cast_unsigned() >> k).cast_signed()),
        _ => truth32(code, a, b),
    }
}

/// What an instruction on two int32 gives. None for one that may raise, and for another opcode.
#[inline(always)]
#[tactic(auto, unfolding(rules::specs::step_rules::Numbers::comparison, rules::specs::step_rules::Numbers::arithmetic, rules::specs::step_rules::Comparisons::numbers))]
fn computed32(code: u16, a: i32, b: i32) -> Option<i32>
    ensures { IfSome result (λ n. binary_of code (value.I4 a) (value.I4 b) ≡ Some (gives (value.I4 n))) }
{
    match code {
        opcode::ADD => Some(a.wrapping_add(b)),
        opcode::SUB => Some(a.wrapping_sub(b)),
        opcode::MUL => Some(a.wrapping_mul(b)),
        opcode::AND => Some(a & b),
        opcode::OR => Some(a | b),
        opcode::XOR => Some(a ^ b),
        _ => shifted32(code, a, b),
    }
}

/// What an instruction on two int64 gives. None for one that may raise, for a comparison, and for another opcode.
#[tactic(auto, unfolding(rules::specs::step_rules::Numbers::comparison, rules::specs::step_rules::Numbers::arithmetic, rules::specs::step_rules::Comparisons::numbers))]
fn computed64(code: u16, a: i64, b: i64) -> Option<i64>
    ensures { IfSome result (λ n. binary_of code (value.I8 a) (value.I8 b) ≡ Some (gives (value.I8 n))) }
{
    match code {
        opcode::ADD => Some(a.wrapping_add(b)),
        opcode::SUB => Some(a.wrapping_sub(b)),
        opcode::MUL => Some(a.wrapping_mul(b)),
        opcode::AND => Some(a & b),
        opcode::OR => Some(a | b),
        opcode::XOR => Some(a ^ b),
        _ => None,
    }
}

/// What an instruction on two operands gives, the lower one and the upper one. None where they aren't two int32 or two int64.
#[inline(always)]
pub(crate) fn computed(code: u16, a: &Value, b: &Value) -> Option<Value>
    ensures { IfSome result (λ v. binary_of code a.now b.now ≡ Some (gives v)) }
{
    match (a, b) {
        (Value::I4(a), Value::I4(b)) => match computed32(code, *a, *b) {
            None => None,
            Some(n) => Some(Value::I4(n)),
        },
        (Value::I8(a), Value::I8(b)) => match computed64(code, *a, *b) {
            None => None,
            Some(n) => Some(Value::I8(n)),
        },
        _ => None,
    }
}

/// What a conversion gives. None for one that raises, and for another opcode.
pub(crate) fn converted(code: u16, v: &Value) -> Option<Value>
    ensures { IfSome result (λ w. convert_of code v.now ≡ Some (gives w)) }
{
    match convert_of(code, v) {
        None => None,
        Some(Outcome::Raises(_)) => None,
        Some(Outcome::Gives(w)) => Some(w),
    }
}

/// Whether the test of a branch on two int32 is true (III.3.5 to III.3.14).
#[inline(always)]
#[tactic(auto, unfolding(rules::specs::step_rules::Branches::test_of, crate::specs::Opened::compared))]
fn holds32(code: u16, a: i32, b: i32) -> Option<bool>
    ensures { IfSome result (λ yes. option_and_then (λ t. test t (value.I4 a) (value.I4 b)) (test_of code) ≡ Some yes) }
{
    match code {
        opcode::BEQ | opcode::BEQ_S => Some(a == b),
        opcode::BGE | opcode::BGE_S => Some(!(a < b)),
        opcode::BGT | opcode::BGT_S => Some(b < a),
        opcode::BLE | opcode::BLE_S => Some(!(b < a)),
        opcode::BLT | opcode::BLT_S => Some(a < b),
        opcode::BNE_UN | opcode::BNE_UN_S => Some(!(a == b)),
        _ => None,
    }
}

/// Whether the test of a branch on two operands is true, the lower one and the upper one. None where they aren't two int32.
#[inline(always)]
pub(crate) fn holds(code: u16, a: &Value, b: &Value) -> Option<bool>
    ensures { IfSome result (λ yes. option_and_then (λ t. test t a.now b.now) (test_of code) ≡ Some yes) }
{
    match (a, b) {
        (Value::I4(a), Value::I4(b)) => holds32(code, *a, *b),
        _ => None,
    }
}

/// Whether a value counts as true: null and 0 don't (III.3.17). None for what isn't plain.
#[inline(always)]
#[tactic(auto, unfolding(rules::specs::step_rules::Branches::truth))]
pub(crate) fn truth(v: &Value) -> Option<bool>
    ensures { IfSome result (λ yes. truth v.now ≡ Some yes) }
{
    match v {
        Value::Null => Some(false),
        Value::I4(n) => Some(*n != 0),
        Value::I8(n) => Some(*n != 0),
        Value::Object(_) => Some(true),
        _ => None,
    }
}
