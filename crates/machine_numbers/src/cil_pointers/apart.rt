//! Places, whatever is on the evaluation stack.

ghost use Rattle.std.specs.Prelude.{◌≡◌, List, [], ◌∷◌, IfOk};
ghost use Rattle.il_base.specs.declared.cil_values.value.Value.{Value};
ghost use Rattle.rules.specs.step_rules.Places.{has_ended, place_value, put_at};
ghost use Rattle.rules.specs.step_rules.Words.{goes};
ghost use Rattle.machine_words.specs.cil_words.Steps.{here_by, next_of};
ghost use Rattle.machine_numbers.specs.cil_pointers.Reaching.{with_stack};

use il_base::NoMemory;
use il_base::cil_values::{Instruction, Path, State, Value};
use machine_words::cil_places::{has_ended, place_value, put_place};
use machine_words::cil_queries::Answers;
use machine_words::cil_words::{Body, StepOut, goes, stopped};
use std::alloc::Global;

/// Whether a pointer leads into a frame that has ended.
pub fn ended_at(st: &State, p: &Path) -> bool
    ensures { (vs : List Value) → has_ended (with_stack vs st.now) p.now ≡ result }
{
    has_ended(st, p)
}

/// The value of a place. None where the pointer leads to none.
pub fn value_at<Q: Answers>(
    alloc: Global,
    q: &Q,
    st: &State,
    p: &Path,
) -> Result<Option<Value>, NoMemory>
    ensures { IfOk result (λ v. (vs : List Value) → place_value (Q.queries q.now) (with_stack vs st.now) p.now ≡ v) }
{
    let v = place_value(alloc, q, st, p)?;
    Ok(v)
}

/// Goes on with a value on the evaluation stack.
pub fn gives(body: &Body, i: &Instruction, v: Value, st: &mut State) -> Result<StepOut, NoMemory>
    ensures { IfOk result (λ out. (vs : List Value) → next_of out st.new [] ≡ goes (here_by body.now st.old) i.now (v ∷ st.old.top.stack) (with_stack vs st.old)) }
{
    st.top.stack.push(v)?;
    Ok(goes(body, i, st))
}

/// Puts a value into a place and goes on. A pointer that leads to none stops the run.
pub fn puts_at<Q: Answers>(
    alloc: Global,
    q: &Q,
    body: &Body,
    i: &Instruction,
    p: &Path,
    v: Value,
    st: &mut State,
) -> Result<StepOut, NoMemory>
    ensures { IfOk result (λ out. (vs : List Value) → next_of out st.new [] ≡ put_at (Q.queries q.now) p.now v (with_stack vs st.old) (goes (here_by body.now st.old) i.now st.old.top.stack)) }
{
    let done = put_place(alloc, q, st, p, v)?;
    if done {
        Ok(goes(body, i, st))
    } else {
        Ok(stopped(st))
    }
}
