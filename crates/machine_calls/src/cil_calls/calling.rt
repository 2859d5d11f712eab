//! `call` and `callvirt`.

ghost use Rattle.std.specs.Prelude.{◌≡◌, ℕ, List, [], IfOk};
ghost use Rattle.il_base.specs.declared.cil_values.state.State.{State as At};
ghost use Rattle.rules.specs.step_rules.Words.{ends_at, given, taken};
ghost use Rattle.rules.specs.step_rules.Dispatch.{slots_of};
ghost use Rattle.rules.specs.step_rules.Calls.{by_prefix, call, calls, may_call, received, receives, with_args};
ghost use Rattle.machine_words.specs.cil_closing.Callees.{callee_by};
ghost use Rattle.machine_words.specs.cil_words.Steps.{here_by, next_of};
ghost use Rattle.machine_calls.specs.cil_invoking.Operands.{method_operand as by_method};

use crate::cil_calls::constrained::constrained_on;
use crate::cil_calls::receiving::{call_on, call_virtual};
use crate::cil_invoking::{
    Operand, begun_for, first_and_rest, method_operand, runs, take_prefix, take_values,
};
use il_base::cil_values::{End, Instruction, Prefix, State, Value};
use il_base::{MethodId, NoMemory, Seq, opcode};
use machine_frames::cil_dispatch::{is_abstract, slots_of};
use machine_words::cil_closing::Callee;
use machine_words::cil_queries::Answers;
use machine_words::cil_words::{Body, StepOut, stopped, stuck};
use std::alloc::Global;

/// `callvirt`, with the prefix as it was at the instruction.
fn by_prefix<Q: Answers>(
    alloc: Global,
    q: &Q,
    body: &Body,
    i: &Instruction,
    c: &Callee,
    values: Seq<Value>,
    prefix: Prefix,
    this: Value,
    st: &mut State,
    printed: &mut Vec<u8>,
) -> Result<StepOut, NoMemory>
    requires { printed.old.items ≡ [] }
    ensures { IfOk result (λ out. next_of out st.new printed.new.items ≡ by_prefix (Q.queries q.now) (here_by body.now st.old) i.now (callee_by c.now) values st.old prefix this) }
{
    match prefix {
        Prefix::Constrained(ty) => {
            let out = constrained_on(alloc, q, body, i, c, values, ty.get(), this, st, printed)?;
            drop(ty);
            Ok(out)
        }
        Prefix::None => call_virtual(alloc, q, body, i, c, values, this, st, printed),
        Prefix::Readonly => call_virtual(alloc, q, body, i, c, values, this, st, printed),
    }
}

/// A method that takes `this` is called on a value.
fn receives<Q: Answers>(
    alloc: Global,
    q: &Q,
    body: &Body,
    i: &Instruction,
    c: &Callee,
    values: Seq<Value>,
    prefix: Prefix,
    this: Value,
    st: &mut State,
    printed: &mut Vec<u8>,
) -> Result<StepOut, NoMemory>
    requires { printed.old.items ≡ [] }
    ensures { IfOk result (λ out. next_of out st.new printed.new.items ≡ receives (Q.queries q.now) (here_by body.now st.old) i.now (callee_by c.now) values st.old prefix this) }
{
    if i.opcode == opcode::CALL {
        drop(prefix);
        return call_on(alloc, q, body, i, c, values, this, st, printed);
    }
    by_prefix(alloc, q, body, i, c, values, prefix, this, st, printed)
}

/// A method that takes `this` is called on the first of these values.
fn received<Q: Answers>(
    alloc: Global,
    q: &Q,
    body: &Body,
    i: &Instruction,
    c: &Callee,
    values: Seq<Value>,
    prefix: Prefix,
    st: &mut State,
    printed: &mut Vec<u8>,
) -> Result<StepOut, NoMemory>
    requires { printed.old.items ≡ [] }
    ensures { IfOk result (λ out. next_of out st.new printed.new.items ≡ received (Q.queries q.now) (here_by body.now st.old) i.now (callee_by c.now) values st.old prefix) }
{
    let Some((this, rest)) = first_and_rest(values) else {
        return Ok(stuck(st));
    };
    receives(alloc, q, body, i, c, rest, prefix, this, st, printed)
}

/// A call with its arguments, which are still on the stack.
fn with_args<Q: Answers>(
    alloc: Global,
    q: &Q,
    body: &Body,
    i: &Instruction,
    c: &Callee,
    st: &mut State,
    printed: &mut Vec<u8>,
) -> Result<StepOut, NoMemory>
    requires { printed.old.items ≡ [] }
    ensures { IfOk result (λ out. next_of out st.new printed.new.items ≡ given (taken (slots_of (callee_by c.now).signature) st.old.top.stack) st.old (with_args (Q.queries q.now) (here_by body.now st.old) i.now (callee_by c.now) st.old)) }
{
    let count = slots_of(c.signature.get())?;
    let Some(values) = take_values(alloc, &mut st.top.stack, count)? else {
        return Ok(stuck(st));
    };
    let prefix = take_prefix(st);
    if c.signature.get().this {
        return received(alloc, q, body, i, c, values, prefix, st, printed);
    }
    drop(prefix);
    runs(alloc, q, body, i, c, values, st, printed)
}

/// `call` takes no abstract method, `callvirt` no static one.
fn may_call(i: &Instruction, c: &Callee) -> bool
    ensures { result ≡ may_call i.now (callee_by c.now) }
{
    if i.opcode == opcode::CALL {
        return !is_abstract(c.method);
    }
    c.signature.get().this
}

fn calls<Q: Answers>(
    alloc: Global,
    q: &Q,
    body: &Body,
    i: &Instruction,
    c: &Callee,
    st: &mut State,
    printed: &mut Vec<u8>,
) -> Result<StepOut, NoMemory>
    requires { printed.old.items ≡ [] }
    ensures { IfOk result (λ out. next_of out st.new printed.new.items ≡ calls (Q.queries q.now) (here_by body.now st.old) i.now st.old (callee_by c.now)) }
{
    if !may_call(i, c) {
        return Ok(stuck(st));
    }
    match begun_for(alloc, q, c, st)? {
        Some(out) => Ok(out),
        None => with_args(alloc, q, body, i, c, st, printed),
    }
}

fn calls_operand<Q: Answers>(
    alloc: Global,
    q: &Q,
    body: &Body,
    i: &Instruction,
    st: &mut State,
    printed: &mut Vec<u8>,
) -> Result<StepOut, NoMemory>
    requires { printed.old.items ≡ [] }
    ensures { IfOk result (λ out. next_of out st.new printed.new.items ≡ by_method (Q.queries q.now) (here_by body.now st.old) i.now.operand st.old (calls (Q.queries q.now) (here_by body.now st.old) i.now st.old)) }
{
    match method_operand(alloc, q, body, st, &i.operand)? {
        Operand::Named(c) => {
            let out = calls(alloc, q, body, i, &c, st, printed)?;
            drop(c);
            Ok(out)
        }
        Operand::Meaningless => Ok(stopped(st)),
        Operand::Another => Ok(stuck(st)),
    }
}

/// An end of the run because of the code, at this instruction.
fn placed(out: StepOut, method: MethodId, offset: u32) -> StepOut
    ensures { (s t : At) → (bytes : List ℕ) → s.top.method.method ≡ method → s.top.at ≡ offset → next_of result t bytes ≡ ends_at s (next_of out t bytes) }
{
    match out {
        StepOut::Went => StepOut::Went,
        StepOut::Over(End::Stuck { .. }) => StepOut::Over(End::Stuck { method, offset }),
        StepOut::Over(End::Stopped { .. }) => StepOut::Over(End::Stopped { method, offset }),
        StepOut::Over(End::Ended { code }) => StepOut::Over(End::Ended { code }),
        StepOut::Over(End::Threw { kind, message }) => {
            StepOut::Over(End::Threw { kind, message })
        }
    }
}

/// `call` (III.3.19) and `callvirt` (III.4.2). An end within a member of the core library that reflection called stands at the call.
pub fn call<Q: Answers>(
    alloc: Global,
    q: &Q,
    body: &Body,
    i: &Instruction,
    st: &mut State,
    printed: &mut Vec<u8>,
) -> Result<StepOut, NoMemory>
    requires { printed.old.items ≡ [] }
    ensures { IfOk result (λ out. next_of out st.new printed.new.items ≡ call (Q.queries q.now) (here_by body.now st.old) i.now st.old) }
{
    let method = st.top.method.method;
    let offset = st.top.at;
    let out = calls_operand(alloc, q, body, i, st, printed)?;
    Ok(placed(out, method, offset))
}
