//! Stores through pointers.

ghost use Rattle.std.specs.Prelude.{◌≡◌, List, [], ◌∷◌, IfOk};
ghost use Rattle.il_base.specs.declared.cil_values.value.Value.{Value};
ghost use Rattle.rules.specs.step_rules.Indirect.{init_by, puts, store_by};
ghost use Rattle.machine_words.specs.cil_words.Steps.{here_by, next_of};
ghost use Rattle.machine_words.specs.cil_stores.Accesses.{access_in};
ghost use Rattle.machine_numbers.specs.cil_pointers.Reaching.{with_stack};
ghost use Rattle.cil_indirect.specs.Accessing.{store_over};

use crate::reaching::through;
use il_base::NoMemory;
use il_base::cil_values::{Instruction, Path, State, Value};
use il_base::core_table::CoreName;
use il_base::world_model::TypeExpr;
use machine_frames::cil_raising::raise;
use machine_numbers::cil_pointers::{Reached, discard, puts_at};
use machine_words::cil_queries::Answers;
use machine_words::cil_stores::{Access, access_of, stored, zero_of};
use machine_words::cil_words::{Body, StepOut, stopped, stuck};
use std::alloc::Global;

/// Puts a value into a place that an access takes.
pub(crate) fn puts<Q: Answers>(
    alloc: Global,
    q: &Q,
    body: &Body,
    i: &Instruction,
    a: &Access,
    p: &Path,
    v: Value,
    st: &mut State,
) -> Result<StepOut, NoMemory>
    ensures { IfOk result (λ out. (vs : List Value) → next_of out st.new [] ≡ puts (Q.queries q.now) (here_by body.now st.old) i.now (with_stack vs st.old) (access_in a.now) p.now v st.old.top.stack) }
{
    match stored(alloc, q, a, &p.of, v)? {
        None => Ok(stuck(st)),
        Some(w) => puts_at(alloc, q, body, i, p, w, st),
    }
}

/// A store by an access, with its operands off the stack.
fn store_over<Q: Answers>(
    alloc: Global,
    q: &Q,
    body: &Body,
    i: &Instruction,
    a: &Access,
    r: Value,
    v: Value,
    st: &mut State,
) -> Result<StepOut, NoMemory>
    ensures { IfOk result (λ out. next_of out st.new [] ≡ store_over (Q.queries q.now) (here_by body.now st.old) i.now (access_in a.now) r v st.old.top.stack (with_stack (v ∷ r ∷ st.old.top.stack) st.old)) }
{
    let found = through(alloc, q, a, &r, st)?;
    match found {
        Reached::At(p, old) => {
            discard(old);
            discard(r);
            let out = puts(alloc, q, body, i, a, &p, v, st)?;
            discard(p);
            Ok(out)
        }
        Reached::Null => {
            st.top.stack.push(r)?;
            st.top.stack.push(v)?;
            let raised = raise(alloc, q, CoreName::NullReferenceException, st)?;
            Ok(raised)
        }
        Reached::Gone => {
            discard(r);
            discard(v);
            Ok(stopped(st))
        }
        Reached::Refused => {
            discard(r);
            discard(v);
            Ok(stuck(st))
        }
    }
}

/// A store by an access (III.3.62, III.4.29).
pub(crate) fn store_by<Q: Answers>(
    alloc: Global,
    q: &Q,
    body: &Body,
    i: &Instruction,
    a: &Access,
    st: &mut State,
) -> Result<StepOut, NoMemory>
    ensures { IfOk result (λ out. next_of out st.new [] ≡ store_by (Q.queries q.now) (here_by body.now st.old) i.now st.old (access_in a.now)) }
{
    let Some(v) = st.top.stack.pop() else {
        return Ok(stuck(st));
    };
    let Some(r) = st.top.stack.pop() else {
        return Ok(stuck(st));
    };
    let out = store_over(alloc, q, body, i, a, r, v, st)?;
    Ok(out)
}

/// Puts the zero of a type where a value leads that is off the stack.
fn init_over<Q: Answers>(
    alloc: Global,
    q: &Q,
    body: &Body,
    i: &Instruction,
    a: &Access,
    r: Value,
    zero: Value,
    st: &mut State,
) -> Result<StepOut, NoMemory>
    ensures { IfOk result (λ out. next_of out st.new [] ≡ store_over (Q.queries q.now) (here_by body.now st.old) i.now (access_in a.now) r zero st.old.top.stack (with_stack (r ∷ st.old.top.stack) st.old)) }
{
    let found = through(alloc, q, a, &r, st)?;
    match found {
        Reached::At(p, old) => {
            discard(old);
            discard(r);
            let out = puts(alloc, q, body, i, a, &p, zero, st)?;
            discard(p);
            Ok(out)
        }
        Reached::Null => {
            discard(zero);
            st.top.stack.push(r)?;
            let raised = raise(alloc, q, CoreName::NullReferenceException, st)?;
            Ok(raised)
        }
        Reached::Gone => {
            discard(r);
            discard(zero);
            Ok(stopped(st))
        }
        Reached::Refused => {
            discard(r);
            discard(zero);
            Ok(stuck(st))
        }
    }
}

/// `initobj` (III.4.5). A type without a zero value stops the step before anything is taken off the stack.
pub(crate) fn init_by<Q: Answers>(
    alloc: Global,
    q: &Q,
    body: &Body,
    i: &Instruction,
    ty: &TypeExpr,
    st: &mut State,
) -> Result<StepOut, NoMemory>
    ensures { IfOk result (λ out. next_of out st.new [] ≡ init_by (Q.queries q.now) (here_by body.now st.old) i.now st.old ty.now) }
{
    let found = zero_of(alloc, q, ty)?;
    let Some(zero) = found else {
        return Ok(stopped(st));
    };
    let Some(r) = st.top.stack.pop() else {
        discard(zero);
        return Ok(stuck(st));
    };
    let a = access_of(alloc, q, ty)?;
    let out = init_over(alloc, q, body, i, &a, r, zero, st)?;
    Ok(out)
}
