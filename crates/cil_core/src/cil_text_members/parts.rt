//! Parts of strings, and strings put together.

ghost use Rattle.std.specs.Prelude.{◌≡◌, ◌∷◌, ◌++◌, List, [], IfOk};
ghost use Rattle.std.specs.Option.{option_and_then, option_copied, option_map};
ghost use Rattle.il_base.specs.declared.cil_values.value.Value.{Value};
ghost use Rattle.rules.specs.step_rules.Queries.{Queries};
ghost use Rattle.rules.specs.step_rules.CoreWords.{Gives};
ghost use Rattle.rules.specs.step_rules.CoreTexts.{all_units, part_of, rest_of, string_concat_form, string_from_form, string_part_form, text_or_raise};
ghost use Rattle.cil_core.specs.cil_members.Outs.{gives_by};

use crate::cil_members::{CoreOut, gives_text, raised, stuck_member};
use il_base::cil_values::{State, Value};
use il_base::core_table::CoreName;
use il_base::{NoMemory, Seq, Units};
use machine_words::cil_objects::units_of;
use machine_words::cil_queries::Answers;
use std::alloc::Global;

/// The units of a string, of null none. None where the value is neither.
#[tactic(auto, using(std::proofs::lemmas::Iterator::Adapters::option_map_id))]
fn units_before<'a>(st: &'a State, v: &Value) -> Option<&'a [u16]>
    ensures { (vs : List Value) → all_units st.now (v.now ∷ vs) ≡ option_and_then (λ us. option_map (λ more. us ++ more) (all_units st.now vs)) (option_copied result) }
{
    match v {
        Value::Null => Some(&[]),
        Value::Object(_) => match units_of(st, v) {
            None => None,
            Some(units) => Some(units.as_slice()),
        },
        Value::I4(_) => None,
        Value::I8(_) => None,
        Value::Native(_) => None,
        Value::Pointer(_) => None,
        Value::Struct(_, _) => None,
        Value::Handle(_) => None,
        Value::FieldHandle(_) => None,
    }
}

/// The units of strings one after the other, of null none. None where a value is neither.
fn all_units(alloc: Global, st: &State, values: &[Value]) -> Result<Option<Units>, NoMemory>
    ensures { IfOk result (λ units. units ≡ all_units st.now values.now) }
{
    let mut all = Seq::new(alloc);
    for v in values {
        let Some(units) = units_before(st, v) else {
            return Ok(None);
        };
        all.extend_from_slice(units)?;
    }
    Ok(Some(all))
}

/// String.Concat of strings.
#[tactic(auto, unfolding(rules::specs::step_rules::CoreTexts::string_concat_form))]
pub fn string_concat(alloc: Global, args: &[Value], st: &mut State) -> Result<CoreOut, NoMemory>
    ensures { IfOk result (λ out. (q : Queries) (give : Gives) → gives_by out st.new [] give ≡ string_concat_form q args.now st.old give) }
{
    let Some(units) = all_units(alloc, st, args)? else {
        return Ok(stuck_member(st));
    };
    gives_text(alloc, units, st)
}

/// The part of a text from a place on, of a count of units. None where it isn't within the text.
fn part_of(units: &[u16], start: i32, count: i32) -> Option<&[u16]>
    ensures { option_copied result ≡ part_of units.now start count }
{
    if start < 0 || count < 0 {
        return None;
    }
    let from = start as usize;
    let to = from + count as usize;
    if units.len() < to {
        return None;
    }
    Some(&units[from..to])
}

/// The part of a text from a place on. None where the place isn't within the text, and isn't its end.
fn rest_of(units: &[u16], start: i32) -> Option<&[u16]>
    ensures { option_copied result ≡ rest_of units.now start }
{
    if start < 0 {
        return None;
    }
    let from = start as usize;
    if units.len() < from {
        return None;
    }
    Some(&units[from..])
}

/// A copy of a part. None stays none.
fn copied(alloc: Global, part: Option<&[u16]>) -> Result<Option<Units>, NoMemory>
    ensures { IfOk result (λ units. units ≡ option_copied part.entry) }
{
    match part {
        None => Ok(None),
        Some(part) => {
            let units = Seq::from_slice(alloc, part)?;
            Ok(Some(units))
        }
    }
}

/// The member gives a new string. Where the part isn't within the text, ArgumentOutOfRangeException is raised.
fn text_or_raise<Q: Answers>(
    alloc: Global,
    q: &Q,
    part: Option<Units>,
    st: &mut State,
) -> Result<CoreOut, NoMemory>
    ensures { IfOk result (λ out. (give : Gives) → gives_by out st.new [] give ≡ text_or_raise (Q.queries q.now) st.old give part) }
{
    match part {
        None => raised(alloc, q, CoreName::ArgumentOutOfRangeException, st),
        Some(units) => gives_text(alloc, units, st),
    }
}

/// String.Substring(int).
#[tactic(auto, unfolding(rules::specs::step_rules::CoreTexts::string_from_form))]
pub fn string_from<Q: Answers>(
    alloc: Global,
    q: &Q,
    args: &[Value],
    st: &mut State,
) -> Result<CoreOut, NoMemory>
    ensures { IfOk result (λ out. (give : Gives) → gives_by out st.new [] give ≡ string_from_form (Q.queries q.now) args.now st.old give) }
{
    let [this, start] = args else {
        return Ok(stuck_member(st));
    };
    let Some(units) = units_of(st, this) else {
        return Ok(stuck_member(st));
    };
    let Value::I4(start) = start else {
        return Ok(stuck_member(st));
    };
    let part = copied(alloc, rest_of(units.as_slice(), *start))?;
    text_or_raise(alloc, q, part, st)
}

/// String.Substring(int, int).
#[tactic(auto, unfolding(rules::specs::step_rules::CoreTexts::string_part_form))]
pub fn string_part<Q: Answers>(
    alloc: Global,
    q: &Q,
    args: &[Value],
    st: &mut State,
) -> Result<CoreOut, NoMemory>
    ensures { IfOk result (λ out. (give : Gives) → gives_by out st.new [] give ≡ string_part_form (Q.queries q.now) args.now st.old give) }
{
    let [this, start, count] = args else {
        return Ok(stuck_member(st));
    };
    let Some(units) = units_of(st, this) else {
        return Ok(stuck_member(st));
    };
    let Value::I4(start) = start else {
        return Ok(stuck_member(st));
    };
    let Value::I4(count) = count else {
        return Ok(stuck_member(st));
    };
    let part = copied(alloc, part_of(units.as_slice(), *start, *count))?;
    text_or_raise(alloc, q, part, st)
}
