//! Constants and the evaluation stack (III.3.33, III.3.40, III.3.45, III.3.51, III.3.54).

ghost use Rattle.std.specs.Prelude.{◌≡◌, [], IfOk};
ghost use Rattle.rules.specs.step_rules.Queries.{Queries};
ghost use Rattle.rules.specs.step_rules.Slots.{nop, load_null, load_int32, load_int64, duplicate, pop};
ghost use Rattle.machine_words.specs.cil_words.Steps.{next_of, here_by};

use crate::cil_slots::operands::{int32_of, int64_of, number_in};
use il_base::NoMemory;
use il_base::cil_values::{Instruction, State, Value};
use machine_words::cil_words::{Body, StepOut, goes, stuck};
use std::alloc::Global;

/// `nop` (III.3.51).
#[tactic(auto, unfolding(rules::specs::step_rules::Slots::nop))]
pub fn nop(body: &Body, i: &Instruction, st: &mut State) -> Result<StepOut, NoMemory>
    ensures { IfOk result (λ out. (q : Queries) → next_of out st.new [] ≡ nop q (here_by body.now st.old) i.now st.old) }
{
    Ok(goes(body, i, st))
}

/// `ldnull` (III.3.45).
#[tactic(auto, unfolding(rules::specs::step_rules::Slots::load_null, rules::specs::step_rules::Words::goes_with))]
pub fn load_null(body: &Body, i: &Instruction, st: &mut State) -> Result<StepOut, NoMemory>
    ensures { IfOk result (λ out. (q : Queries) → next_of out st.new [] ≡ load_null q (here_by body.now st.old) i.now st.old) }
{
    st.top.stack.push(Value::Null)?;
    Ok(goes(body, i, st))
}

/// `ldc.i4` (III.3.40).
#[tactic(auto, unfolding(rules::specs::step_rules::Slots::load_int32, rules::specs::step_rules::Words::goes_with))]
pub fn load_int32(body: &Body, i: &Instruction, st: &mut State) -> Result<StepOut, NoMemory>
    ensures { IfOk result (λ out. (q : Queries) → next_of out st.new [] ≡ load_int32 q (here_by body.now st.old) i.now st.old) }
{
    let Some(n) = number_in(&i.operand) else {
        return Ok(stuck(st));
    };
    let Some(n) = int32_of(n) else {
        return Ok(stuck(st));
    };
    st.top.stack.push(Value::I4(n))?;
    Ok(goes(body, i, st))
}

/// `ldc.i8` (III.3.40).
#[tactic(auto, unfolding(rules::specs::step_rules::Slots::load_int64, rules::specs::step_rules::Words::goes_with))]
pub fn load_int64(body: &Body, i: &Instruction, st: &mut State) -> Result<StepOut, NoMemory>
    ensures { IfOk result (λ out. (q : Queries) → next_of out st.new [] ≡ load_int64 q (here_by body.now st.old) i.now st.old) }
{
    let Some(n) = number_in(&i.operand) else {
        return Ok(stuck(st));
    };
    st.top.stack.push(Value::I8(int64_of(n)))?;
    Ok(goes(body, i, st))
}

/// `dup` (III.3.33).
#[tactic(auto, unfolding(rules::specs::step_rules::Slots::duplicate, rules::specs::step_rules::Words::goes_with))]
pub fn duplicate(
    alloc: Global,
    body: &Body,
    i: &Instruction,
    st: &mut State,
) -> Result<StepOut, NoMemory>
    ensures { IfOk result (λ out. (q : Queries) → next_of out st.new [] ≡ duplicate q (here_by body.now st.old) i.now st.old) }
{
    let Some(v) = st.top.stack.pop() else {
        return Ok(stuck(st));
    };
    let copy = v.copy(alloc)?;
    st.top.stack.push(v)?;
    st.top.stack.push(copy)?;
    Ok(goes(body, i, st))
}

/// `pop` (III.3.54).
#[tactic(auto, unfolding(rules::specs::step_rules::Slots::pop, rules::specs::step_rules::Words::goes_with))]
pub fn pop(body: &Body, i: &Instruction, st: &mut State) -> Result<StepOut, NoMemory>
    ensures { IfOk result (λ out. (q : Queries) → next_of out st.new [] ≡ pop q (here_by body.now st.old) i.now st.old) }
{
    let Some(_) = st.top.stack.pop() else {
        return Ok(stuck(st));
    };
    Ok(goes(body, i, st))
}
