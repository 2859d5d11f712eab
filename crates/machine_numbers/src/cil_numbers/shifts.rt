//! Shifts (III.3.58 to III.3.60), `neg` and `not` (III.3.50, III.3.52).

ghost use Rattle.std.specs.Prelude.{◌≡◌};
ghost use Rattle.std.specs.Int.{w32, w64};
ghost use Rattle.rules.specs.step_rules.Numbers.{is_shift, shift, shift_count, shifted, negated, unary_of};

use il_base::cil_values::Value;
use il_base::opcode;

/// Whether an instruction shifts.
pub(crate) fn is_shift(code: u16) -> bool
    ensures { result ≡ is_shift code }
{
    code == opcode::SHL || code == opcode::SHR || code == opcode::SHR_UN
}

/// By how many bits, before it is taken modulo the width. None for what is no int32 and no native integer.
#[tactic(auto, unfolding(rules::specs::step_rules::Numbers::shift_count))]
pub(crate) fn shift_count(v: &Value) -> Option<u64>
    ensures { result ≡ shift_count v.now }
{
    match v {
        Value::I4(n) => Some(u64::from(n.cast_unsigned())),
        Value::Native(n) => Some(n.cast_unsigned()),
        _ => None,
    }
}

#[tactic(auto, unfolding(rules::specs::step_rules::Numbers::shifted))]
fn shifted32(code: u16, n: i32, count: u64) -> i32
    ensures { result ≡ shifted code w32 n count }
{
    let k = (count % 32) as u32;
    match code {
        opcode::SHL => n << k,
        opcode::SHR => n >> k,
        _ => (n.cast_unsigned() >> k).cast_signed(),
    }
}

#[tactic(auto, unfolding(rules::specs::step_rules::Numbers::shifted))]
fn shifted64(code: u16, n: i64, count: u64) -> i64
    ensures { result ≡ shifted code w64 n count }
{
    let k = (count % 64) as u32;
    match code {
        opcode::SHL => n << k,
        opcode::SHR => n >> k,
        _ => (n.cast_unsigned() >> k).cast_signed(),
    }
}

/// The shifted number. None for what is no number.
#[tactic(auto, unfolding(rules::specs::step_rules::Numbers::shift))]
pub(crate) fn shift(code: u16, v: &Value, count: u64) -> Option<Value>
    ensures { result ≡ shift code v.now count }
{
    match v {
        Value::I4(n) => Some(Value::I4(shifted32(code, *n, count))),
        Value::I8(n) => Some(Value::I8(shifted64(code, *n, count))),
        Value::Native(n) => Some(Value::Native(shifted64(code, *n, count))),
        _ => None,
    }
}

fn negated32(code: u16, n: i32) -> i32
    ensures { result ≡ negated code w32 n }
{
    if code == opcode::NEG {
        n.wrapping_neg()
    } else {
        !n
    }
}

fn negated64(code: u16, n: i64) -> i64
    ensures { result ≡ negated code w64 n }
{
    if code == opcode::NEG {
        n.wrapping_neg()
    } else {
        !n
    }
}

/// The negative, or the complement. None for what is no number.
#[tactic(auto, unfolding(rules::specs::step_rules::Numbers::unary_of))]
pub(crate) fn unary_of(code: u16, v: &Value) -> Option<Value>
    ensures { result ≡ unary_of code v.now }
{
    match v {
        Value::I4(n) => Some(Value::I4(negated32(code, *n))),
        Value::I8(n) => Some(Value::I8(negated64(code, *n))),
        Value::Native(n) => Some(Value::Native(negated64(code, *n))),
        _ => None,
    }
}
