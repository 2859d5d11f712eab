//! Simple instructions on arguments, locals, constants and the evaluation stack (III.3.33 to III.3.63).

ghost use Rattle.std.specs.Prelude.{◌≡◌, IfOk};
ghost use Rattle.rules.specs.step_rules.Queries.{Queries};
ghost use Rattle.rules.specs.step_rules.Slots.{duplicate, load_arg, load_int32, load_int64, load_local, load_null, nop, pop};
ghost use Rattle.machine_words.specs.cil_words.Steps.{here_by};
ghost use Rattle.cil_machine.specs.Quiet.{QuietBy};

use crate::quiet::moves::{jumps, jumps_with_one, pushes};
use crate::quiet::values::plain;
use il_base::NoMemory;
use il_base::cil_values::{Instruction, State, Use, Value};
use machine_numbers::cil_operands::operand;
use machine_words::cil_words::Body;

/// `nop` (III.3.51).
#[inline(always)]
#[tactic(auto, unfolding(rules::specs::step_rules::Slots::nop, rules::specs::step_rules::Words::branches, rules::specs::step_rules::Words::goes_with))]
pub(crate) fn nop(body: &Body, i: &Instruction, st: &mut State) -> bool
    ensures { (q : Queries) → QuietBy result (nop q (here_by body.now st.old) i.now st.old) st.old st.new }
{
    jumps(body, i, i.next, st)
}

/// `ldarg` (III.3.38).
#[inline(always)]
#[tactic(auto, unfolding(rules::specs::step_rules::Slots::load_arg))]
pub(crate) fn load_arg(body: &Body, i: &Instruction, st: &mut State) -> Result<bool, NoMemory>
    ensures { IfOk result (λ went. (q : Queries) → QuietBy went (load_arg q (here_by body.now st.old) i.now st.old) st.old st.new) }
{
    let Use::Slot(at) = &i.operand else {
        return Ok(false);
    };
    let Some(value) = st.top.args.get(*at as usize) else {
        return Ok(false);
    };
    let Some(v) = plain(value) else {
        return Ok(false);
    };
    let went = pushes(body, i, v, st)?;
    Ok(went)
}

/// `ldloc` (III.3.43).
#[inline(always)]
#[tactic(auto, unfolding(rules::specs::step_rules::Slots::load_local))]
pub(crate) fn load_local(body: &Body, i: &Instruction, st: &mut State) -> Result<bool, NoMemory>
    ensures { IfOk result (λ went. (q : Queries) → QuietBy went (load_local q (here_by body.now st.old) i.now st.old) st.old st.new) }
{
    let Use::Slot(at) = &i.operand else {
        return Ok(false);
    };
    let Some(value) = st.top.locals.get(*at as usize) else {
        return Ok(false);
    };
    let Some(v) = plain(value) else {
        return Ok(false);
    };
    let went = pushes(body, i, v, st)?;
    Ok(went)
}

/// `ldnull` (III.3.45).
#[inline(always)]
#[tactic(auto, unfolding(rules::specs::step_rules::Slots::load_null))]
pub(crate) fn load_null(body: &Body, i: &Instruction, st: &mut State) -> Result<bool, NoMemory>
    ensures { IfOk result (λ went. (q : Queries) → QuietBy went (load_null q (here_by body.now st.old) i.now st.old) st.old st.new) }
{
    let went = pushes(body, i, Value::Null, st)?;
    Ok(went)
}

/// `ldc.i4` (III.3.40).
#[inline(always)]
#[tactic(auto, unfolding(rules::specs::step_rules::Slots::load_int32, rules::specs::step_rules::Integers::fits_signed))]
pub(crate) fn load_int32(body: &Body, i: &Instruction, st: &mut State) -> Result<bool, NoMemory>
    ensures { IfOk result (λ went. (q : Queries) → QuietBy went (load_int32 q (here_by body.now st.old) i.now st.old) st.old st.new) }
{
    let Use::Number(n) = &i.operand else {
        return Ok(false);
    };
    let n = *n;
    if n < -2_147_483_648 || n > 2_147_483_647 {
        return Ok(false);
    }
    let went = pushes(body, i, Value::I4(n as i32), st)?;
    Ok(went)
}

/// `ldc.i8` (III.3.40).
#[inline(always)]
#[tactic(auto, unfolding(rules::specs::step_rules::Slots::load_int64, rules::specs::step_rules::Integers::fits_signed))]
pub(crate) fn load_int64(body: &Body, i: &Instruction, st: &mut State) -> Result<bool, NoMemory>
    ensures { IfOk result (λ went. (q : Queries) → QuietBy went (load_int64 q (here_by body.now st.old) i.now st.old) st.old st.new) }
{
    let Use::Number(n) = &i.operand else {
        return Ok(false);
    };
    let went = pushes(body, i, Value::I8(*n), st)?;
    Ok(went)
}

/// `dup` (III.3.33).
#[inline(always)]
#[tactic(auto, unfolding(rules::specs::step_rules::Slots::duplicate))]
pub(crate) fn duplicate(body: &Body, i: &Instruction, st: &mut State) -> Result<bool, NoMemory>
    ensures { IfOk result (λ went. (q : Queries) → QuietBy went (duplicate q (here_by body.now st.old) i.now st.old) st.old st.new) }
{
    let Some((top, _)) = operand(st) else {
        return Ok(false);
    };
    let Some(v) = plain(top) else {
        return Ok(false);
    };
    let went = pushes(body, i, v, st)?;
    Ok(went)
}

/// `pop` (III.3.54).
#[inline(always)]
#[tactic(auto, unfolding(rules::specs::step_rules::Slots::pop, rules::specs::step_rules::Words::branches, rules::specs::step_rules::Words::goes_with))]
pub(crate) fn pop(body: &Body, i: &Instruction, st: &mut State) -> bool
    ensures { (q : Queries) → QuietBy result (pop q (here_by body.now st.old) i.now st.old) st.old st.new }
{
    let Some(_) = operand(st) else {
        return false;
    };
    jumps_with_one(body, i, i.next, st)
}
