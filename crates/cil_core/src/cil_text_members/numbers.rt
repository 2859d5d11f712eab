//! Int32.Parse.

ghost use Rattle.std.specs.Prelude.{◌≡◌, ℕ, [], Option, min, IfOk};
ghost use Rattle.std.specs.Option.{option_map};
ghost use Rattle.rules.specs.step_rules.CoreWords.{Gives};
ghost use Rattle.rules.specs.step_rules.CoreTexts.{digit_of, digits, digits_from, int_parse_form, parsed};
ghost use Rattle.cil_core.specs.cil_members.Outs.{gives_by};
ghost use Rattle.cil_core.specs.cil_text_members.Parsed.{as_int, enough, fitting, int_or_raise, signed};

use crate::cil_members::{CoreOut, gives_int, raised, stuck_member};
use il_base::NoMemory;
use il_base::cil_values::{State, Value};
use il_base::core_table::CoreName;
use machine_words::cil_objects::units_of;
use machine_words::cil_queries::Answers;
use std::alloc::Global;

/// No int32 has an absolute value as large as this.
const ENOUGH: u64 = 2_147_483_649;

/// `0` as a UTF-16 unit.
const ZERO: u16 = 48;

/// `9` as a UTF-16 unit.
const NINE: u16 = 57;

/// `+` as a UTF-16 unit.
const PLUS: u16 = 43;

/// `-` as a UTF-16 unit.
const MINUS: u16 = 45;

/// What a text is as an int32.
#[derive(Clone, Copy)]
pub(crate) enum Parsed {
    /// It isn't ASCII digits after one sign or none.
    NoNumber,
    /// Its number is no int32.
    TooLarge,
    Number(i32),
}

/// What an ASCII digit is worth.
fn digit_of(unit: u16) -> Option<u64>
    ensures { result ≡ digit_of unit }
{
    if ZERO <= unit && unit <= NINE {
        Some(u64::from(unit - ZERO))
    } else {
        None
    }
}

/// The number that ASCII digits make, but at most `ENOUGH`. None where a unit is no digit.
#[tactic(auto, unfolding(rules::specs::step_rules::CoreTexts::digits_from))]
fn digits_from(units: &[u16]) -> Option<u64>
    ensures { result ≡ option_map (min enough) (digits_from 0 units.now) }
{
    let mut n = 0;
    for unit in units {
        let Some(digit) = digit_of(*unit) else {
            return None;
        };
        n = (n * 10 + digit).min(ENOUGH);
    }
    Some(n)
}

/// The number that one or more ASCII digits make, but at most `ENOUGH`.
fn digits(units: &[u16]) -> Option<u64>
    ensures { result ≡ option_map (min enough) (digits units.now) }
{
    match units {
        [] => None,
        [_, ..] => digits_from(units),
    }
}

/// A number as an int32.
fn fitting(negative: bool, n: u64) -> Parsed
    ensures { result ≡ fitting (signed negative n) }
{
    if negative {
        if n > 0x8000_0000 {
            Parsed::TooLarge
        } else {
            Parsed::Number(-(n as i64) as i32)
        }
    } else if n > 0x7fff_ffff {
        Parsed::TooLarge
    } else {
        Parsed::Number(n as i32)
    }
}

/// Digits after a sign as an int32. `n` can be `ENOUGH` in place of any larger number.
fn signed_int(negative: bool, n: Option<u64>) -> Parsed
    ensures { (d : Option ℕ) → n ≡ option_map (min enough) d → result ≡ as_int (option_map (signed negative) d) }
{
    match n {
        None => Parsed::NoNumber,
        Some(n) => fitting(negative, n),
    }
}

/// A text as an int32.
#[tactic(auto, unfolding(rules::specs::step_rules::CoreTexts::parsed))]
fn int_of_text(units: &[u16]) -> Parsed
    ensures { result ≡ as_int (parsed units.now) }
{
    let [first, rest @ ..] = units else {
        return Parsed::NoNumber;
    };
    if *first == MINUS {
        signed_int(true, digits(rest))
    } else if *first == PLUS {
        signed_int(false, digits(rest))
    } else {
        signed_int(false, digits(units))
    }
}

/// The member gives the int32, or raises what the text is refused with.
fn int_or_raise<Q: Answers>(
    alloc: Global,
    q: &Q,
    read: Parsed,
    st: &mut State,
) -> Result<CoreOut, NoMemory>
    ensures { IfOk result (λ out. (give : Gives) → gives_by out st.new [] give ≡ int_or_raise (Q.queries q.now) st.old give read) }
{
    match read {
        Parsed::NoNumber => raised(alloc, q, CoreName::FormatException, st),
        Parsed::TooLarge => raised(alloc, q, CoreName::OverflowException, st),
        Parsed::Number(n) => Ok(gives_int(st, n)),
    }
}

/// Int32.Parse(string).
#[tactic(auto, using(crate::proofs::lemmas::cil_text_members::Ints::int_or_raised), unfolding(rules::specs::step_rules::CoreTexts::int_parse_form))]
pub fn int_parse<Q: Answers>(
    alloc: Global,
    q: &Q,
    args: &[Value],
    st: &mut State,
) -> Result<CoreOut, NoMemory>
    ensures { IfOk result (λ out. (give : Gives) → gives_by out st.new [] give ≡ int_parse_form (Q.queries q.now) args.now st.old give) }
{
    let [v] = args else {
        return Ok(stuck_member(st));
    };
    if let Value::Null = v {
        return raised(alloc, q, CoreName::ArgumentNullException, st);
    }
    let Some(units) = units_of(st, v) else {
        return Ok(stuck_member(st));
    };
    let read = int_of_text(units.as_slice());
    int_or_raise(alloc, q, read, st)
}
