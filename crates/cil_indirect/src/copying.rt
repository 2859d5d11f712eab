//! `cpobj`.

ghost use Rattle.std.specs.Prelude.{◌≡◌, List, [], ◌∷◌, IfOk};
ghost use Rattle.il_base.specs.declared.cil_values.value.Value.{Value};
ghost use Rattle.il_base.specs.declared.cil_values.value.Value.TheVariants as value;
ghost use Rattle.rules.specs.step_rules.Indirect.{copy_by};
ghost use Rattle.machine_words.specs.cil_words.Steps.{here_by, next_of};
ghost use Rattle.machine_words.specs.cil_stores.Accesses.{access_in};
ghost use Rattle.machine_numbers.specs.cil_pointers.Reaching.{with_stack};
ghost use Rattle.cil_indirect.specs.Accessing.{copy_from, copy_over, puts_loaded};

use crate::reaching::through;
use crate::storing::puts;
use il_base::NoMemory;
use il_base::cil_values::{Instruction, Path, State, Value};
use il_base::core_table::CoreName;
use machine_frames::cil_raising::raise;
use machine_numbers::cil_pointers::{Reached, discard};
use machine_words::cil_queries::Answers;
use machine_words::cil_stores::{Access, loaded};
use machine_words::cil_words::{Body, StepOut, stopped, stuck};
use std::alloc::Global;

/// Puts a value that was loaded into a place.
fn puts_loaded<Q: Answers>(
    alloc: Global,
    q: &Q,
    body: &Body,
    i: &Instruction,
    a: &Access,
    to: &Path,
    v: Option<Value>,
    st: &mut State,
) -> Result<StepOut, NoMemory>
    ensures { IfOk result (λ out. (vs : List Value) → next_of out st.new [] ≡ puts_loaded (Q.queries q.now) (here_by body.now st.old) i.now (access_in a.now) to.now st.old.top.stack (with_stack vs st.old) v) }
{
    match v {
        None => Ok(stuck(st)),
        Some(w) => puts(alloc, q, body, i, a, to, w, st),
    }
}

/// Copies from where a value leads to a place, with the operands off the stack.
fn copy_from<Q: Answers>(
    alloc: Global,
    q: &Q,
    body: &Body,
    i: &Instruction,
    a: &Access,
    p: &Path,
    to: Value,
    from: Value,
    st: &mut State,
) -> Result<StepOut, NoMemory>
    ensures { IfOk result (λ out. next_of out st.new [] ≡ copy_from (Q.queries q.now) (here_by body.now st.old) i.now (access_in a.now) p.now from st.old.top.stack (with_stack (from ∷ to ∷ st.old.top.stack) st.old)) }
{
    let found = through(alloc, q, a, &from, st)?;
    match found {
        Reached::At(o, v) => {
            discard(o);
            discard(to);
            discard(from);
            let out = puts_loaded(alloc, q, body, i, a, p, loaded(a, v), st)?;
            Ok(out)
        }
        Reached::Null => {
            st.top.stack.push(to)?;
            st.top.stack.push(from)?;
            let raised = raise(alloc, q, CoreName::NullReferenceException, st)?;
            Ok(raised)
        }
        Reached::Gone => {
            discard(to);
            discard(from);
            Ok(stopped(st))
        }
        Reached::Refused => {
            discard(to);
            discard(from);
            Ok(stuck(st))
        }
    }
}

/// Copies from where a value leads to where another leads, with both off the stack.
fn copy_over<Q: Answers>(
    alloc: Global,
    q: &Q,
    body: &Body,
    i: &Instruction,
    a: &Access,
    to: Value,
    from: Value,
    st: &mut State,
) -> Result<StepOut, NoMemory>
    ensures { IfOk result (λ out. next_of out st.new [] ≡ copy_over (Q.queries q.now) (here_by body.now st.old) i.now (access_in a.now) to from st.old.top.stack (with_stack (from ∷ to ∷ st.old.top.stack) st.old)) }
{
    let found = through(alloc, q, a, &to, st)?;
    match found {
        Reached::At(p, old) => {
            discard(old);
            let out = copy_from(alloc, q, body, i, a, &p, to, from, st)?;
            discard(p);
            Ok(out)
        }
        Reached::Null => {
            st.top.stack.push(to)?;
            st.top.stack.push(from)?;
            let raised = raise(alloc, q, CoreName::NullReferenceException, st)?;
            Ok(raised)
        }
        Reached::Gone => {
            discard(to);
            discard(from);
            Ok(stopped(st))
        }
        Reached::Refused => {
            discard(to);
            discard(from);
            Ok(stuck(st))
        }
    }
}

/// `cpobj` (III.4.4): the destination is below the source.
pub(crate) fn copy_by<Q: Answers>(
    alloc: Global,
    q: &Q,
    body: &Body,
    i: &Instruction,
    a: &Access,
    st: &mut State,
) -> Result<StepOut, NoMemory>
    ensures { IfOk result (λ out. next_of out st.new [] ≡ copy_by (Q.queries q.now) (here_by body.now st.old) i.now st.old (access_in a.now)) }
{
    let Some(from) = st.top.stack.pop() else {
        return Ok(stuck(st));
    };
    let Some(to) = st.top.stack.pop() else {
        return Ok(stuck(st));
    };
    let out = copy_over(alloc, q, body, i, a, to, from, st)?;
    Ok(out)
}
