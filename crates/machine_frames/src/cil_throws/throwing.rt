//! `throw` and `rethrow`.

ghost use Rattle.std.specs.Prelude.{◌≡◌, ◌∷◌, [], IfOk};
ghost use Rattle.rules.specs.step_rules.Throws.{rethrow, throw_form, throws, throws_again};
ghost use Rattle.machine_frames.specs.cil_throws.Blocks.{exception_of};
ghost use Rattle.il_base.specs.declared.cil_values.value.Value.TheVariants.{Object};
ghost use Rattle.std.specs.Option.{option_copied};
ghost use Rattle.machine_words.specs.cil_words.Steps.{here_by, next_of};

use crate::cil_raising::{raise, throw};
use crate::cil_throws::innermost::innermost;
use crate::cil_throws::reasons::reason_of;
use il_base::cil_values::{Instruction, Reason, State, Value};
use il_base::core_table::CoreName;
use il_base::{NoMemory, opcode};
use machine_words::cil_objects::{core_type, is_a};
use machine_words::cil_queries::Answers;
use machine_words::cil_words::{Body, StepOut, stuck};
use std::alloc::Global;

/// Raises an object, which is an exception.
fn throws_object<Q: Answers>(
    alloc: Global,
    q: &Q,
    a: u32,
    st: &mut State,
) -> Result<StepOut, NoMemory>
    ensures { IfOk result (λ out. next_of out st.new [] ≡ throws (Q.queries q.now) st.old (Object a)) }
{
    let exception = core_type(q, CoreName::Exception);
    if !is_a(alloc, q, st, &exception, a)? {
        return Ok(stuck(st));
    }
    throw(alloc, q, a, st)
}

/// Raises what a value names, which was on top of the stack. The step counts from the state with the value there.
fn throws<Q: Answers>(alloc: Global, q: &Q, v: Value, st: &mut State) -> Result<StepOut, NoMemory>
    ensures { IfOk result (λ out. next_of out st.new [] ≡ throws (Q.queries q.now) (record st.old { top = record st.old.top { stack = v ∷ st.old.top.stack } }) v) }
{
    match v {
        Value::Null => {
            st.top.stack.push(Value::Null)?;
            raise(alloc, q, CoreName::NullReferenceException, st)
        }
        Value::Object(a) => {
            st.top.stack.push(Value::Object(a))?;
            throws_object(alloc, q, a, st)
        }
        Value::I4(_) => Ok(stuck(st)),
        Value::I8(_) => Ok(stuck(st)),
        Value::Native(_) => Ok(stuck(st)),
        Value::Pointer(_) => Ok(stuck(st)),
        Value::Struct(_, _) => Ok(stuck(st)),
        Value::Handle(_) => Ok(stuck(st)),
        Value::FieldHandle(_) => Ok(stuck(st)),
    }
}

/// The exception that entered a handler. None for what no catch clause took.
fn exception_of(reason: Option<&Reason>) -> Option<u32>
    ensures { result ≡ exception_of (option_copied reason.entry) }
{
    match reason {
        None => None,
        Some(Reason::Caught(a)) => Some(*a),
        Some(Reason::Leaving(_, _)) => None,
        Some(Reason::Unwinding(_)) => None,
    }
}

/// `rethrow` raises the exception of the innermost handler, which is a catch.
fn rethrow<Q: Answers>(
    alloc: Global,
    q: &Q,
    body: &Body,
    st: &mut State,
) -> Result<StepOut, NoMemory>
    ensures { IfOk result (λ out. next_of out st.new [] ≡ rethrow (Q.queries q.now) (here_by body.now st.old) st.old) }
{
    let Some(place) = innermost(body.code, st.top.at) else {
        return Ok(stuck(st));
    };
    let Some(a) = exception_of(reason_of(place, &st.top.running)) else {
        return Ok(stuck(st));
    };
    throw(alloc, q, a, st)
}

/// `throw` (III.4.31) and `rethrow` (III.4.24).
#[tactic(auto, unfolding(rules::specs::step_rules::Throws::throw_form))]
pub fn throw_form<Q: Answers>(
    alloc: Global,
    q: &Q,
    body: &Body,
    i: &Instruction,
    st: &mut State,
) -> Result<StepOut, NoMemory>
    ensures { IfOk result (λ out. next_of out st.new [] ≡ throw_form (Q.queries q.now) (here_by body.now st.old) i.now st.old) }
{
    if i.opcode != opcode::THROW {
        return rethrow(alloc, q, body, st);
    }
    let Some(v) = st.top.stack.pop() else {
        return Ok(stuck(st));
    };
    throws(alloc, q, v, st)
}
