//! The order of strings.

ghost use Rattle.std.specs.Prelude.{◌≡◌, []};
ghost use Rattle.rules.specs.step_rules.Queries.{Queries};
ghost use Rattle.rules.specs.step_rules.CoreWords.{Gives};
ghost use Rattle.rules.specs.step_rules.CoreTexts.{no_text, string_compare_form, text_order, units, units_order};
ghost use Rattle.cil_core.specs.cil_members.Outs.{gives_by};
ghost use Rattle.cil_core.specs.cil_text_members.Pairs.{against, of_both};

use crate::cil_members::{CoreOut, gives_int, stuck_member};
use il_base::cil_values::{State, Value};
use machine_words::cil_objects::units_of;

/// -1, 0 or 1, as the first text comes before, with or after the second one, unit by unit.
#[tactic(auto, unfolding(rules::specs::step_rules::CoreTexts::units_order))]
fn units_order(us: &[u16], vs: &[u16]) -> i32
    ensures { result ≡ units_order us.now vs.now }
{
    let mut left = vs;
    for u in us {
        let [v, more @ ..] = left else {
            return 1;
        };
        if *u < *v {
            return -1;
        }
        if *v < *u {
            return 1;
        }
        left = more;
    }
    if left.is_empty() { 0 } else { -1 }
}

/// The order of null and a value. None where the value is neither null nor a string.
fn null_order(st: &State, w: &Value) -> Option<i32>
    ensures { result ≡ against text_order st.now no_text w.now }
{
    match w {
        Value::Null => Some(0),
        Value::Object(_) => match units_of(st, w) {
            None => None,
            Some(_) => Some(-1),
        },
        Value::I4(_) => None,
        Value::I8(_) => None,
        Value::Native(_) => None,
        Value::Pointer(_) => None,
        Value::Struct(_, _) => None,
        Value::Handle(_) => None,
        Value::FieldHandle(_) => None,
    }
}

/// The order of a text and a value. None where the value is neither null nor a string.
fn text_order(st: &State, us: &[u16], w: &Value) -> Option<i32>
    ensures { result ≡ against text_order st.now (units us.now) w.now }
{
    match w {
        Value::Null => Some(1),
        Value::Object(_) => match units_of(st, w) {
            None => None,
            Some(vs) => Some(units_order(us, vs.as_slice())),
        },
        Value::I4(_) => None,
        Value::I8(_) => None,
        Value::Native(_) => None,
        Value::Pointer(_) => None,
        Value::Struct(_, _) => None,
        Value::Handle(_) => None,
        Value::FieldHandle(_) => None,
    }
}

/// The order of two values. None where one is neither null nor a string.
fn order_of(st: &State, v: &Value, w: &Value) -> Option<i32>
    ensures { result ≡ of_both text_order st.now v.now w.now }
{
    match v {
        Value::Null => null_order(st, w),
        Value::Object(_) => match units_of(st, v) {
            None => None,
            Some(us) => text_order(st, us.as_slice(), w),
        },
        Value::I4(_) => None,
        Value::I8(_) => None,
        Value::Native(_) => None,
        Value::Pointer(_) => None,
        Value::Struct(_, _) => None,
        Value::Handle(_) => None,
        Value::FieldHandle(_) => None,
    }
}

/// String.CompareOrdinal(string, string): -1, 0 or 1. Null comes before any text.
#[tactic(auto, using(crate::proofs::lemmas::cil_text_members::Both::both_by), unfolding(rules::specs::step_rules::CoreTexts::string_compare_form))]
pub fn string_compare(args: &[Value], st: &State) -> CoreOut
    ensures { (q : Queries) (give : Gives) → gives_by result st.now [] give ≡ string_compare_form q args.now st.now give }
{
    let [v, w] = args else {
        return stuck_member(st);
    };
    match order_of(st, v, w) {
        None => stuck_member(st),
        Some(order) => gives_int(st, order),
    }
}
