//! Arguments and locals (III.3.38, III.3.39, III.3.43, III.3.44, III.3.61, III.3.63).

ghost use Rattle.std.specs.Prelude.{◌≡◌, [], IfOk};
ghost use Rattle.rules.specs.step_rules.Queries.{Queries};
ghost use Rattle.rules.specs.step_rules.Slots.{load_arg, load_local, address_arg, address_local, store_arg, store_local};
ghost use Rattle.machine_words.specs.cil_words.Steps.{next_of, here_by};

use crate::cil_slots::operands::slot_in;
use crate::cil_slots::slot_types::{arg_type, local_type};
use il_base::cil_values::{Instruction, Path, Root, State, Value};
use il_base::{NoMemory, Seq};
use machine_words::cil_queries::Answers;
use machine_words::cil_stores::fits;
use machine_words::cil_words::{Body, StepOut, goes, stuck};
use std::alloc::Global;

/// `ldarg` (III.3.38).
#[tactic(auto, unfolding(rules::specs::step_rules::Slots::load_arg, rules::specs::step_rules::Words::goes_with))]
pub fn load_arg(
    alloc: Global,
    body: &Body,
    i: &Instruction,
    st: &mut State,
) -> Result<StepOut, NoMemory>
    ensures { IfOk result (λ out. (q : Queries) → next_of out st.new [] ≡ load_arg q (here_by body.now st.old) i.now st.old) }
{
    let Some(at) = slot_in(&i.operand) else {
        return Ok(stuck(st));
    };
    let Some(value) = st.top.args.get(at as usize) else {
        return Ok(stuck(st));
    };
    let copy = value.copy(alloc)?;
    st.top.stack.push(copy)?;
    Ok(goes(body, i, st))
}

/// `ldloc` (III.3.43).
#[tactic(auto, unfolding(rules::specs::step_rules::Slots::load_local, rules::specs::step_rules::Words::goes_with))]
pub fn load_local(
    alloc: Global,
    body: &Body,
    i: &Instruction,
    st: &mut State,
) -> Result<StepOut, NoMemory>
    ensures { IfOk result (λ out. (q : Queries) → next_of out st.new [] ≡ load_local q (here_by body.now st.old) i.now st.old) }
{
    let Some(at) = slot_in(&i.operand) else {
        return Ok(stuck(st));
    };
    let Some(value) = st.top.locals.get(at as usize) else {
        return Ok(stuck(st));
    };
    let copy = value.copy(alloc)?;
    st.top.stack.push(copy)?;
    Ok(goes(body, i, st))
}

/// `ldarga` (III.3.39).
#[tactic(auto, unfolding(rules::specs::step_rules::Slots::address_arg, rules::specs::step_rules::Words::goes_with))]
pub fn address_arg<Q: Answers>(
    alloc: Global,
    q: &Q,
    body: &Body,
    i: &Instruction,
    st: &mut State,
) -> Result<StepOut, NoMemory>
    ensures { IfOk result (λ out. next_of out st.new [] ≡ address_arg (Q.queries q.now) (here_by body.now st.old) i.now st.old) }
{
    let Some(at) = slot_in(&i.operand) else {
        return Ok(stuck(st));
    };
    let Some(_) = st.top.args.get(at as usize) else {
        return Ok(stuck(st));
    };
    let Some(of) = arg_type(alloc, q, body, st, at)? else {
        return Ok(stuck(st));
    };
    let root = Root::Arg(st.top.number, at);
    let steps = Seq::new(alloc);
    let pointer = Value::pointer(alloc, Path { root, steps, of })?;
    st.top.stack.push(pointer)?;
    Ok(goes(body, i, st))
}

/// `ldloca` (III.3.44).
#[tactic(auto, unfolding(rules::specs::step_rules::Slots::address_local, rules::specs::step_rules::Words::goes_with))]
pub fn address_local<Q: Answers>(
    alloc: Global,
    q: &Q,
    body: &Body,
    i: &Instruction,
    st: &mut State,
) -> Result<StepOut, NoMemory>
    ensures { IfOk result (λ out. next_of out st.new [] ≡ address_local (Q.queries q.now) (here_by body.now st.old) i.now st.old) }
{
    let Some(at) = slot_in(&i.operand) else {
        return Ok(stuck(st));
    };
    let Some(_) = st.top.locals.get(at as usize) else {
        return Ok(stuck(st));
    };
    let Some(of) = local_type(alloc, q, body, st, at)? else {
        return Ok(stuck(st));
    };
    let root = Root::Local(st.top.number, at);
    let steps = Seq::new(alloc);
    let pointer = Value::pointer(alloc, Path { root, steps, of })?;
    st.top.stack.push(pointer)?;
    Ok(goes(body, i, st))
}

/// `starg` (III.3.61).
#[tactic(auto, unfolding(rules::specs::step_rules::Slots::store_arg, rules::specs::step_rules::Words::goes_with))]
pub fn store_arg<Q: Answers>(
    alloc: Global,
    q: &Q,
    body: &Body,
    i: &Instruction,
    st: &mut State,
) -> Result<StepOut, NoMemory>
    ensures { IfOk result (λ out. next_of out st.new [] ≡ store_arg (Q.queries q.now) (here_by body.now st.old) i.now st.old) }
{
    let Some(at) = slot_in(&i.operand) else {
        return Ok(stuck(st));
    };
    let Some(_) = st.top.args.get(at as usize) else {
        return Ok(stuck(st));
    };
    let Some(ty) = arg_type(alloc, q, body, st, at)? else {
        return Ok(stuck(st));
    };
    let Some(v) = st.top.stack.pop() else {
        return Ok(stuck(st));
    };
    let Some(kept) = fits(alloc, q, &ty, v)? else {
        return Ok(stuck(st));
    };
    st.top.args.set(at as usize, kept);
    Ok(goes(body, i, st))
}

/// `stloc` (III.3.63).
#[tactic(auto, unfolding(rules::specs::step_rules::Slots::store_local, rules::specs::step_rules::Words::goes_with))]
pub fn store_local<Q: Answers>(
    alloc: Global,
    q: &Q,
    body: &Body,
    i: &Instruction,
    st: &mut State,
) -> Result<StepOut, NoMemory>
    ensures { IfOk result (λ out. next_of out st.new [] ≡ store_local (Q.queries q.now) (here_by body.now st.old) i.now st.old) }
{
    let Some(at) = slot_in(&i.operand) else {
        return Ok(stuck(st));
    };
    let Some(_) = st.top.locals.get(at as usize) else {
        return Ok(stuck(st));
    };
    let Some(ty) = local_type(alloc, q, body, st, at)? else {
        return Ok(stuck(st));
    };
    let Some(v) = st.top.stack.pop() else {
        return Ok(stuck(st));
    };
    let Some(kept) = fits(alloc, q, &ty, v)? else {
        return Ok(stuck(st));
    };
    st.top.locals.set(at as usize, kept);
    Ok(goes(body, i, st))
}
