//! Loads through pointers.

ghost use Rattle.std.specs.Prelude.{◌≡◌, List, [], ◌∷◌, IfOk};
ghost use Rattle.il_base.specs.declared.cil_values.value.Value.{Value};
ghost use Rattle.rules.specs.step_rules.Indirect.{load_by};
ghost use Rattle.machine_words.specs.cil_words.Steps.{here_by, next_of};
ghost use Rattle.machine_words.specs.cil_stores.Accesses.{access_in};
ghost use Rattle.machine_numbers.specs.cil_pointers.Reaching.{with_stack};
ghost use Rattle.cil_indirect.specs.Accessing.{gives, load_over};

use crate::reaching::through;
use il_base::NoMemory;
use il_base::cil_values::{Instruction, State, Value};
use il_base::core_table::CoreName;
use machine_frames::cil_raising::raise;
use machine_numbers::cil_pointers::{Reached, discard, gives};
use machine_words::cil_queries::Answers;
use machine_words::cil_stores::{Access, loaded};
use machine_words::cil_words::{Body, StepOut, stopped, stuck};
use std::alloc::Global;

/// Goes on with a value that was loaded.
fn gives_loaded(
    body: &Body,
    i: &Instruction,
    v: Option<Value>,
    st: &mut State,
) -> Result<StepOut, NoMemory>
    ensures { IfOk result (λ out. (vs : List Value) → next_of out st.new [] ≡ gives (here_by body.now st.old) i.now st.old.top.stack (with_stack vs st.old) v) }
{
    match v {
        None => Ok(stuck(st)),
        Some(w) => gives(body, i, w, st),
    }
}

/// A load by an access, with its operand off the stack.
fn load_over<Q: Answers>(
    alloc: Global,
    q: &Q,
    body: &Body,
    i: &Instruction,
    a: &Access,
    r: Value,
    st: &mut State,
) -> Result<StepOut, NoMemory>
    ensures { IfOk result (λ out. next_of out st.new [] ≡ load_over (Q.queries q.now) (here_by body.now st.old) i.now (access_in a.now) r st.old.top.stack (with_stack (r ∷ st.old.top.stack) st.old)) }
{
    let found = through(alloc, q, a, &r, st)?;
    match found {
        Reached::At(p, v) => {
            discard(p);
            discard(r);
            let out = gives_loaded(body, i, loaded(a, v), st)?;
            Ok(out)
        }
        Reached::Null => {
            st.top.stack.push(r)?;
            let raised = raise(alloc, q, CoreName::NullReferenceException, st)?;
            Ok(raised)
        }
        Reached::Gone => {
            discard(r);
            Ok(stopped(st))
        }
        Reached::Refused => {
            discard(r);
            Ok(stuck(st))
        }
    }
}

/// A load by an access (III.3.42, III.4.13).
pub(crate) fn load_by<Q: Answers>(
    alloc: Global,
    q: &Q,
    body: &Body,
    i: &Instruction,
    a: &Access,
    st: &mut State,
) -> Result<StepOut, NoMemory>
    ensures { IfOk result (λ out. next_of out st.new [] ≡ load_by (Q.queries q.now) (here_by body.now st.old) i.now st.old (access_in a.now)) }
{
    let Some(r) = st.top.stack.pop() else {
        return Ok(stuck(st));
    };
    let out = load_over(alloc, q, body, i, a, r, st)?;
    Ok(out)
}
