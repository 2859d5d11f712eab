//! Lengths and units of strings.

ghost use Rattle.std.specs.Prelude.{◌≡◌, [], IfOk};
ghost use Rattle.std.specs.List.{position};
ghost use Rattle.rules.specs.step_rules.Queries.{Queries};
ghost use Rattle.rules.specs.step_rules.CoreWords.{Gives};
ghost use Rattle.rules.specs.step_rules.CoreTexts.{is_unit, place_or_minus_one, string_index_form, string_length_form, string_unit_form, unit_at};
ghost use Rattle.cil_core.specs.cil_members.Outs.{gives_by};

use crate::cil_members::{CoreOut, gives_int, int_of, raised, stuck_member};
use il_base::NoMemory;
use il_base::cil_values::{State, Value};
use il_base::core_table::CoreName;
use machine_words::cil_objects::units_of;
use machine_words::cil_queries::Answers;
use std::alloc::Global;

/// String.get_Length().
#[tactic(auto, unfolding(rules::specs::step_rules::CoreTexts::string_length_form))]
pub fn string_length(args: &[Value], st: &State) -> Result<CoreOut, NoMemory>
    ensures { IfOk result (λ out. (q : Queries) (give : Gives) → gives_by out st.now [] give ≡ string_length_form q args.now st.now give) }
{
    let [this] = args else {
        return Ok(stuck_member(st));
    };
    let Some(units) = units_of(st, this) else {
        return Ok(stuck_member(st));
    };
    let count = int_of(units.len())?;
    Ok(gives_int(st, count))
}

/// The unit at a place. None where the place is before or after the text.
fn unit_at(units: &[u16], k: i32) -> Option<u16>
    ensures { result ≡ unit_at units.now k }
{
    if k < 0 {
        return None;
    }
    units.get(k as usize).copied()
}

/// String.get_Chars(int).
#[tactic(auto, unfolding(rules::specs::step_rules::CoreTexts::string_unit_form))]
pub fn string_unit<Q: Answers>(
    alloc: Global,
    q: &Q,
    args: &[Value],
    st: &mut State,
) -> Result<CoreOut, NoMemory>
    ensures { IfOk result (λ out. (give : Gives) → gives_by out st.new [] give ≡ string_unit_form (Q.queries q.now) args.now st.old give) }
{
    let [this, k] = args else {
        return Ok(stuck_member(st));
    };
    let Some(units) = units_of(st, this) else {
        return Ok(stuck_member(st));
    };
    let Value::I4(k) = k else {
        return Ok(stuck_member(st));
    };
    match unit_at(units.as_slice(), *k) {
        None => raised(alloc, q, CoreName::IndexOutOfRangeException, st),
        Some(unit) => Ok(gives_int(st, i32::from(unit))),
    }
}

fn is_unit(c: i32, unit: u16) -> bool
    ensures { result ≡ is_unit c unit }
{
    c == i32::from(unit)
}

fn first_place(units: &[u16], c: i32) -> Option<usize>
    ensures { result ≡ position (is_unit c) units.now }
{
    units.iter().position(|unit| is_unit(c, *unit))
}

/// The first place of a unit, or -1.
fn index_of(units: &[u16], c: i32) -> Result<i32, NoMemory>
    ensures { IfOk result (λ n. n ≡ place_or_minus_one (position (is_unit c) units.now)) }
{
    match first_place(units, c) {
        None => Ok(-1),
        Some(at) => int_of(at),
    }
}

/// String.IndexOf(char).
#[tactic(auto, unfolding(rules::specs::step_rules::CoreTexts::string_index_form))]
pub fn string_index(args: &[Value], st: &State) -> Result<CoreOut, NoMemory>
    ensures { IfOk result (λ out. (q : Queries) (give : Gives) → gives_by out st.now [] give ≡ string_index_form q args.now st.now give) }
{
    let [this, c] = args else {
        return Ok(stuck_member(st));
    };
    let Some(units) = units_of(st, this) else {
        return Ok(stuck_member(st));
    };
    let Value::I4(c) = c else {
        return Ok(stuck_member(st));
    };
    let at = index_of(units.as_slice(), *c)?;
    Ok(gives_int(st, at))
}
