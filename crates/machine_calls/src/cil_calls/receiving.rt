//! What a call is on.

ghost use Rattle.std.specs.Prelude.{◌≡◌, [], IfOk};
ghost use Rattle.rules.specs.step_rules.Calls.{call_on, call_virtual, virtual_on};
ghost use Rattle.machine_words.specs.cil_closing.Callees.{callee_by};
ghost use Rattle.il_base.specs.declared.cil_values.value.Value.TheVariants.{Object, Pointer};
ghost use Rattle.machine_words.specs.cil_words.Steps.{here_by, next_of};

use crate::cil_invoking::{runs, runs_found, with_first};
use il_base::cil_values::{Instruction, Path, State, Value};
use il_base::core_table::CoreName;
use il_base::{NoMemory, Seq};
use machine_frames::cil_dispatch::found_from;
use machine_frames::cil_raising::raise;
use machine_words::cil_closing::Callee;
use machine_words::cil_objects::type_of;
use machine_words::cil_queries::Answers;
use machine_words::cil_stores::is_value;
use machine_words::cil_words::{Body, StepOut, stuck};
use std::alloc::Global;

/// `call` on a place, of a method of a value type.
fn call_at<Q: Answers>(
    alloc: Global,
    q: &Q,
    body: &Body,
    i: &Instruction,
    c: &Callee,
    values: Seq<Value>,
    p: Path,
    st: &mut State,
    printed: &mut Vec<u8>,
) -> Result<StepOut, NoMemory>
    requires { printed.old.items ≡ [] }
    ensures { IfOk result (λ out. next_of out st.new printed.new.items ≡ call_on (Q.queries q.now) (here_by body.now st.old) i.now (callee_by c.now) values st.old (Pointer p)) }
{
    if !is_value(alloc, q, &c.called.owner)? {
        return Ok(stuck(st));
    }
    let this = Value::pointer(alloc, p)?;
    let all = with_first(alloc, this, values)?;
    runs(alloc, q, body, i, c, all, st, printed)
}

/// `call` on an object, of a method of a class.
fn call_object<Q: Answers>(
    alloc: Global,
    q: &Q,
    body: &Body,
    i: &Instruction,
    c: &Callee,
    values: Seq<Value>,
    a: u32,
    st: &mut State,
    printed: &mut Vec<u8>,
) -> Result<StepOut, NoMemory>
    requires { printed.old.items ≡ [] }
    ensures { IfOk result (λ out. next_of out st.new printed.new.items ≡ call_on (Q.queries q.now) (here_by body.now st.old) i.now (callee_by c.now) values st.old (Object a)) }
{
    if is_value(alloc, q, &c.called.owner)? {
        return Ok(stuck(st));
    }
    let all = with_first(alloc, Value::Object(a), values)?;
    runs(alloc, q, body, i, c, all, st, printed)
}

/// `call` of a method that takes `this`: a pointer where the owner is a value type, else an object.
pub(crate) fn call_on<Q: Answers>(
    alloc: Global,
    q: &Q,
    body: &Body,
    i: &Instruction,
    c: &Callee,
    values: Seq<Value>,
    this: Value,
    st: &mut State,
    printed: &mut Vec<u8>,
) -> Result<StepOut, NoMemory>
    requires { printed.old.items ≡ [] }
    ensures { IfOk result (λ out. next_of out st.new printed.new.items ≡ call_on (Q.queries q.now) (here_by body.now st.old) i.now (callee_by c.now) values st.old this) }
{
    match this {
        Value::Null => raise(alloc, q, CoreName::NullReferenceException, st),
        Value::Pointer(p) => call_at(alloc, q, body, i, c, values, p.into_inner(), st, printed),
        Value::Object(a) => call_object(alloc, q, body, i, c, values, a, st, printed),
        Value::I4(_) => Ok(stuck(st)),
        Value::I8(_) => Ok(stuck(st)),
        Value::Native(_) => Ok(stuck(st)),
        Value::Struct(_, _) => Ok(stuck(st)),
        Value::Handle(_) => Ok(stuck(st)),
        Value::FieldHandle(_) => Ok(stuck(st)),
    }
}

/// `callvirt` on an object.
fn virtual_on<Q: Answers>(
    alloc: Global,
    q: &Q,
    body: &Body,
    i: &Instruction,
    c: &Callee,
    values: Seq<Value>,
    a: u32,
    st: &mut State,
    printed: &mut Vec<u8>,
) -> Result<StepOut, NoMemory>
    requires { printed.old.items ≡ [] }
    ensures { IfOk result (λ out. next_of out st.new printed.new.items ≡ virtual_on (Q.queries q.now) (here_by body.now st.old) i.now (callee_by c.now) values st.old a) }
{
    let Some(o) = st.heap.get(a) else {
        return Ok(stuck(st));
    };
    let ty = type_of(alloc, q, o)?;
    let found = found_from(alloc, q, c, &ty)?;
    let out = runs_found(
        alloc,
        q,
        body,
        i,
        values,
        Value::Object(a),
        c,
        &found,
        st,
        printed,
    )?;
    drop(found);
    drop(ty);
    Ok(out)
}

/// `callvirt` without `constrained.`: on an object.
pub(crate) fn call_virtual<Q: Answers>(
    alloc: Global,
    q: &Q,
    body: &Body,
    i: &Instruction,
    c: &Callee,
    values: Seq<Value>,
    this: Value,
    st: &mut State,
    printed: &mut Vec<u8>,
) -> Result<StepOut, NoMemory>
    requires { printed.old.items ≡ [] }
    ensures { IfOk result (λ out. next_of out st.new printed.new.items ≡ call_virtual (Q.queries q.now) (here_by body.now st.old) i.now (callee_by c.now) values st.old this) }
{
    match this {
        Value::Null => raise(alloc, q, CoreName::NullReferenceException, st),
        Value::Object(a) => virtual_on(alloc, q, body, i, c, values, a, st, printed),
        Value::Pointer(_) => Ok(stuck(st)),
        Value::I4(_) => Ok(stuck(st)),
        Value::I8(_) => Ok(stuck(st)),
        Value::Native(_) => Ok(stuck(st)),
        Value::Struct(_, _) => Ok(stuck(st)),
        Value::Handle(_) => Ok(stuck(st)),
        Value::FieldHandle(_) => Ok(stuck(st)),
    }
}
