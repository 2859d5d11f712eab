//! Comparisons of strings.

ghost use Rattle.std.specs.Prelude.{◌≡◌, [], IfOk};
ghost use Rattle.std.specs.Option.{option_map};
ghost use Rattle.rules.specs.step_rules.Queries.{Queries};
ghost use Rattle.rules.specs.step_rules.CoreWords.{Gives};
ghost use Rattle.rules.specs.step_rules.Objects.{units_of};
ghost use Rattle.rules.specs.step_rules.CoreTexts.{are_same, is_empty_text, has_units, no_text, string_is_empty_form, string_is_form, string_itself_form, string_other_form, string_same_form, text_or_null, units};
ghost use Rattle.cil_core.specs.cil_members.Outs.{gives_by};
ghost use Rattle.cil_core.specs.cil_text_members.Pairs.{against, of_both};

use crate::cil_members::{CoreOut, gives_truth, gives_value, stuck_member};
use il_base::NoMemory;
use il_base::cil_values::{State, Value};
use machine_words::cil_objects::units_of;
use std::alloc::Global;

/// String.ToString().
#[tactic(auto, unfolding(rules::specs::step_rules::CoreTexts::string_itself_form))]
pub fn string_itself(alloc: Global, args: &[Value], st: &State) -> Result<CoreOut, NoMemory>
    ensures { IfOk result (λ out. (q : Queries) (give : Gives) → gives_by out st.now [] give ≡ string_itself_form q args.now st.now give) }
{
    let [this] = args else {
        return Ok(stuck_member(st));
    };
    let copy = this.copy(alloc)?;
    Ok(gives_value(st, copy))
}

/// Whether a value is null. None where it is neither null nor a string.
fn null_same(st: &State, w: &Value) -> Option<bool>
    ensures { result ≡ against are_same st.now no_text w.now }
{
    match w {
        Value::Null => Some(true),
        Value::Object(_) => match units_of(st, w) {
            None => None,
            Some(_) => Some(false),
        },
        Value::I4(_) => None,
        Value::I8(_) => None,
        Value::Native(_) => None,
        Value::Pointer(_) => None,
        Value::Struct(_, _) => None,
        Value::Handle(_) => None,
        Value::FieldHandle(_) => None,
    }
}

/// Whether a value is a string with these units. None where it is neither null nor a string.
fn units_same(st: &State, us: &[u16], w: &Value) -> Option<bool>
    ensures { result ≡ against are_same st.now (units us.now) w.now }
{
    match w {
        Value::Null => Some(false),
        Value::Object(_) => match units_of(st, w) {
            None => None,
            Some(vs) => Some(us == vs.as_slice()),
        },
        Value::I4(_) => None,
        Value::I8(_) => None,
        Value::Native(_) => None,
        Value::Pointer(_) => None,
        Value::Struct(_, _) => None,
        Value::Handle(_) => None,
        Value::FieldHandle(_) => None,
    }
}

/// Whether two values are the same text, or both null. None where one is neither null nor a string.
fn both_same(st: &State, v: &Value, w: &Value) -> Option<bool>
    ensures { result ≡ of_both are_same st.now v.now w.now }
{
    match v {
        Value::Null => null_same(st, w),
        Value::Object(_) => match units_of(st, v) {
            None => None,
            Some(us) => units_same(st, us.as_slice(), w),
        },
        Value::I4(_) => None,
        Value::I8(_) => None,
        Value::Native(_) => None,
        Value::Pointer(_) => None,
        Value::Struct(_, _) => None,
        Value::Handle(_) => None,
        Value::FieldHandle(_) => None,
    }
}

/// String.op_Equality, String.Equals(string).
#[tactic(auto, using(crate::proofs::lemmas::cil_text_members::Both::both_by), unfolding(rules::specs::step_rules::CoreTexts::string_same_form))]
pub fn string_same(args: &[Value], st: &State) -> CoreOut
    ensures { (q : Queries) (give : Gives) → gives_by result st.now [] give ≡ string_same_form q args.now st.now give }
{
    let [v, w] = args else {
        return stuck_member(st);
    };
    match both_same(st, v, w) {
        None => stuck_member(st),
        Some(same) => gives_truth(st, same),
    }
}

/// String.op_Inequality.
#[tactic(auto, using(crate::proofs::lemmas::cil_text_members::Both::both_by), unfolding(rules::specs::step_rules::CoreTexts::string_other_form))]
pub fn string_other(args: &[Value], st: &State) -> CoreOut
    ensures { (q : Queries) (give : Gives) → gives_by result st.now [] give ≡ string_other_form q args.now st.now give }
{
    let [v, w] = args else {
        return stuck_member(st);
    };
    match both_same(st, v, w) {
        None => stuck_member(st),
        Some(same) => gives_truth(st, !same),
    }
}

/// Whether a value is a string with these units.
fn has_units(st: &State, us: &[u16], w: &Value) -> bool
    ensures { result ≡ has_units us.now (units_of st.now w.now) }
{
    match units_of(st, w) {
        None => false,
        Some(vs) => us == vs.as_slice(),
    }
}

/// String.Equals(object).
#[tactic(auto, unfolding(rules::specs::step_rules::CoreTexts::string_is_form))]
pub fn string_is(args: &[Value], st: &State) -> CoreOut
    ensures { (q : Queries) (give : Gives) → gives_by result st.now [] give ≡ string_is_form q args.now st.now give }
{
    let [this, w] = args else {
        return stuck_member(st);
    };
    let Some(us) = units_of(st, this) else {
        return stuck_member(st);
    };
    gives_truth(st, has_units(st, us.as_slice(), w))
}

/// Whether a value is null or the empty text. None where it is neither null nor a string.
fn is_empty(st: &State, v: &Value) -> Option<bool>
    ensures { result ≡ option_map is_empty_text (text_or_null st.now v.now) }
{
    match v {
        Value::Null => Some(true),
        Value::Object(_) => match units_of(st, v) {
            None => None,
            Some(us) => match us.as_slice() {
                [] => Some(true),
                [_, ..] => Some(false),
            },
        },
        Value::I4(_) => None,
        Value::I8(_) => None,
        Value::Native(_) => None,
        Value::Pointer(_) => None,
        Value::Struct(_, _) => None,
        Value::Handle(_) => None,
        Value::FieldHandle(_) => None,
    }
}

/// String.IsNullOrEmpty(string).
#[tactic(auto, using(crate::proofs::lemmas::cil_text_members::Both::one_by), unfolding(rules::specs::step_rules::CoreTexts::string_is_empty_form))]
pub fn string_is_empty(args: &[Value], st: &State) -> CoreOut
    ensures { (q : Queries) (give : Gives) → gives_by result st.now [] give ≡ string_is_empty_form q args.now st.now give }
{
    let [v] = args else {
        return stuck_member(st);
    };
    match is_empty(st, v) {
        None => stuck_member(st),
        Some(empty) => gives_truth(st, empty),
    }
}
