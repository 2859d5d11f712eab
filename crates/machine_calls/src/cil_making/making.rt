//! `newobj`.

ghost use Rattle.std.specs.Prelude.{◌≡◌, ℕ, List, [], length, IfOk, if◌then◌else◌};
ghost use Rattle.il_base.specs.declared.cil_values.object.Obj.TheVariants as object;
ghost use Rattle.std.specs.Option.{option_and_then};
ghost use Rattle.il_base.specs.declared.cil_values.value.Value.TheVariants.{Object};
ghost use Rattle.rules.specs.step_rules.Words.{given, made, object_at, taken};
ghost use Rattle.rules.specs.step_rules.Places.{boxed_in};
ghost use Rattle.rules.specs.step_rules.Stores.{is_value};
ghost use Rattle.rules.specs.step_rules.Objects.{new_instance};
ghost use Rattle.rules.specs.step_rules.Calls.{constructs, constructs_value, gives_made, makes, makes_with, may_make, new_object};
ghost use Rattle.machine_words.specs.cil_closing.Callees.{callee_by};
ghost use Rattle.machine_words.specs.cil_words.Steps.{here_by, next_of};

use crate::cil_invoking::{
    Operand, begun_for, gives_made, invoke, method_operand, take_prefix, take_values, with_first,
};
use cil_core::cil_members::CoreOut;
use il_base::cil_values::{Instruction, Obj, State, Value, Waits};
use il_base::{NoMemory, Seq};
use machine_frames::cil_dispatch::path_into_box;
use machine_frames::cil_frames::is_abstract_type;
use machine_words::cil_closing::Callee;
use machine_words::cil_objects::new_instance;
use machine_words::cil_places::boxed_value;
use machine_words::cil_queries::Answers;
use machine_words::cil_stores::{is_value, zero_of};
use machine_words::cil_words::{Body, StepOut, stopped, stuck};
use std::alloc::Global;

/// Whether a method is an instance constructor of a type of which there are objects.
fn may_make<Q: Answers>(q: &Q, c: &Callee) -> bool
    ensures { result ≡ may_make (Q.queries q.now) (callee_by c.now) }
{
    c.method.constructor && c.signature.get().this && !is_abstract_type(q, &c.called.owner)
}

/// The object that was made is pushed, whatever its constructor gave, and the next instruction comes.
fn gives_object(
    body: &Body,
    i: &Instruction,
    returned: Option<Value>,
    a: u32,
    st: &mut State,
) -> Result<StepOut, NoMemory>
    ensures { IfOk result (λ out. (bytes : List ℕ) → next_of out st.new bytes ≡ gives_made (here_by body.now st.old) i.now (Object a) st.old returned bytes) }
{
    drop(returned);
    let out = gives_made(body, i, Value::Object(a), st)?;
    Ok(out)
}

/// A constructor of a class runs on a new object.
#[tactic(auto, unfolding(rules::specs::step_rules::Words::goes_with))]
fn constructs<Q: Answers>(
    alloc: Global,
    q: &Q,
    body: &Body,
    i: &Instruction,
    c: &Callee,
    values: Seq<Value>,
    a: u32,
    st: &mut State,
    printed: &mut Vec<u8>,
) -> Result<StepOut, NoMemory>
    requires { printed.old.items ≡ [] }
    ensures { IfOk result (λ out. next_of out st.new printed.new.items ≡ constructs (Q.queries q.now) (here_by body.now st.old) i.now (callee_by c.now) values a st.old) }
{
    let all = with_first(alloc, Value::Object(a), values)?;
    match invoke(alloc, q, c, all, Waits::Makes(a), st, printed)? {
        CoreOut::Stepped(out) => Ok(out),
        CoreOut::Gave(returned) => gives_object(body, i, returned, a, st),
    }
}

/// The value that a constructor made in a box is pushed, whatever it gave, and the next instruction comes.
fn gives_value(
    alloc: Global,
    body: &Body,
    i: &Instruction,
    returned: Option<Value>,
    a: u32,
    st: &mut State,
) -> Result<StepOut, NoMemory>
    ensures { IfOk result (λ out. (bytes : List ℕ) → next_of out st.new bytes ≡ given (option_and_then boxed_in (object_at st.old a)) st.old (λ v. gives_made (here_by body.now st.old) i.now v st.old returned bytes)) }
{
    drop(returned);
    let Some(v) = boxed_value(alloc, st, a)? else {
        return Ok(stuck(st));
    };
    let out = gives_made(body, i, v, st)?;
    Ok(out)
}

/// A value type's constructor runs on a pointer into a new box.
#[tactic(auto, unfolding(rules::specs::step_rules::Words::goes_with))]
fn constructs_value<Q: Answers>(
    alloc: Global,
    q: &Q,
    body: &Body,
    i: &Instruction,
    c: &Callee,
    values: Seq<Value>,
    a: u32,
    st: &mut State,
    printed: &mut Vec<u8>,
) -> Result<StepOut, NoMemory>
    requires { printed.old.items ≡ [] }
    ensures { IfOk result (λ out. next_of out st.new printed.new.items ≡ constructs_value (Q.queries q.now) (here_by body.now st.old) i.now (callee_by c.now) values a st.old) }
{
    let owner = c.called.owner.copy(alloc)?;
    let this = Value::pointer(alloc, path_into_box(alloc, a, owner))?;
    let all = with_first(alloc, this, values)?;
    match invoke(alloc, q, c, all, Waits::MakesValue(a), st, printed)? {
        CoreOut::Stepped(out) => Ok(out),
        CoreOut::Gave(returned) => gives_value(alloc, body, i, returned, a, st),
    }
}

/// What is to be made, with a value type's zero value, on the constructor's arguments. They are off the stack.
fn makes_with<Q: Answers>(
    alloc: Global,
    q: &Q,
    body: &Body,
    i: &Instruction,
    c: &Callee,
    zero: Value,
    values: Seq<Value>,
    st: &mut State,
    printed: &mut Vec<u8>,
) -> Result<StepOut, NoMemory>
    requires { printed.old.items ≡ [] }
    ensures { IfOk result (λ out. next_of out st.new printed.new.items ≡ (if is_value (Q.queries q.now) c.now.called.owner then made (object.Boxed c.now.called.owner zero) st.old (constructs_value (Q.queries q.now) (here_by body.now st.old) i.now (callee_by c.now) values) else made (new_instance (Q.queries q.now) c.now.called.owner) st.old (constructs (Q.queries q.now) (here_by body.now st.old) i.now (callee_by c.now) values))) }
{
    let owner = &c.called.owner;
    if is_value(alloc, q, owner)? {
        let of = owner.copy(alloc)?;
        let a = st.heap.add(Obj::Boxed { of, value: zero })?;
        return constructs_value(alloc, q, body, i, c, values, a, st, printed);
    }
    drop(zero);
    let instance = new_instance(alloc, q, owner)?;
    let a = st.heap.add(instance)?;
    constructs(alloc, q, body, i, c, values, a, st, printed)
}

/// The constructor's arguments are taken off the stack.
fn takes_args<Q: Answers>(
    alloc: Global,
    q: &Q,
    body: &Body,
    i: &Instruction,
    c: &Callee,
    zero: Value,
    st: &mut State,
    printed: &mut Vec<u8>,
) -> Result<StepOut, NoMemory>
    requires { printed.old.items ≡ [] }
    ensures { IfOk result (λ out. next_of out st.new printed.new.items ≡ given (taken (length (callee_by c.now).signature.params) st.old.top.stack) st.old (makes_with (Q.queries q.now) (here_by body.now st.old) i.now (callee_by c.now) st.old zero)) }
{
    let count = c.signature.get().params.len();
    let Some(values) = take_values(alloc, &mut st.top.stack, count)? else {
        return Ok(stuck(st));
    };
    drop(take_prefix(st));
    makes_with(alloc, q, body, i, c, zero, values, st, printed)
}

/// A type without a zero value stops the step before anything is popped.
fn makes<Q: Answers>(
    alloc: Global,
    q: &Q,
    body: &Body,
    i: &Instruction,
    c: &Callee,
    st: &mut State,
    printed: &mut Vec<u8>,
) -> Result<StepOut, NoMemory>
    requires { printed.old.items ≡ [] }
    ensures { IfOk result (λ out. next_of out st.new printed.new.items ≡ makes (Q.queries q.now) (here_by body.now st.old) i.now st.old (callee_by c.now)) }
{
    if !may_make(q, c) {
        return Ok(stuck(st));
    }
    let Some(zero) = zero_of(alloc, q, &c.called.owner)? else {
        return Ok(stopped(st));
    };
    match begun_for(alloc, q, c, st)? {
        Some(out) => Ok(out),
        None => takes_args(alloc, q, body, i, c, zero, st, printed),
    }
}

/// `newobj` (III.4.21).
#[tactic(auto, unfolding(rules::specs::step_rules::Calls::new_object))]
pub fn new_object<Q: Answers>(
    alloc: Global,
    q: &Q,
    body: &Body,
    i: &Instruction,
    st: &mut State,
    printed: &mut Vec<u8>,
) -> Result<StepOut, NoMemory>
    requires { printed.old.items ≡ [] }
    ensures { IfOk result (λ out. next_of out st.new printed.new.items ≡ new_object (Q.queries q.now) (here_by body.now st.old) i.now st.old) }
{
    match method_operand(alloc, q, body, st, &i.operand)? {
        Operand::Named(c) => {
            let out = makes(alloc, q, body, i, &c, st, printed)?;
            drop(c);
            Ok(out)
        }
        Operand::Meaningless => Ok(stopped(st)),
        Operand::Another => Ok(stuck(st)),
    }
}
