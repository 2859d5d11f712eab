//! Simple instructions on numbers (III.3).

ghost use Rattle.std.specs.Prelude.{◌≡◌, IfOk};
ghost use Rattle.rules.specs.step_rules.Queries.{Queries};
ghost use Rattle.rules.specs.step_rules.Numbers.{binary, convert};
ghost use Rattle.machine_words.specs.cil_words.Steps.{here_by};
ghost use Rattle.cil_machine.specs.Quiet.{QuietBy};

use crate::quiet::moves::{gives_for_one, gives_for_two};
use crate::quiet::values::{computed, converted};
use il_base::NoMemory;
use il_base::cil_values::{Instruction, State};
use machine_numbers::cil_operands::{next_operand, operand};
use machine_words::cil_words::Body;

/// The instructions on two numbers (III.3.1 and on).
#[inline(always)]
pub(crate) fn binary(body: &Body, i: &Instruction, st: &mut State) -> Result<bool, NoMemory>
    ensures { IfOk result (λ went. (q : Queries) → QuietBy went (binary q (here_by body.now st.old) i.now st.old) st.old st.new) }
{
    let Some((b, below)) = operand(st) else {
        return Ok(false);
    };
    let Some((a, _)) = next_operand(below) else {
        return Ok(false);
    };
    let Some(v) = computed(i.opcode, a, b) else {
        return Ok(false);
    };
    let went = gives_for_two(body, i, v, st)?;
    Ok(went)
}

/// The conversions (III.3.27 to III.3.29).
#[inline(always)]
pub(crate) fn convert(body: &Body, i: &Instruction, st: &mut State) -> Result<bool, NoMemory>
    ensures { IfOk result (λ went. (q : Queries) → QuietBy went (convert q (here_by body.now st.old) i.now st.old) st.old st.new) }
{
    let Some((v, _)) = operand(st) else {
        return Ok(false);
    };
    let Some(w) = converted(i.opcode, v) else {
        return Ok(false);
    };
    let went = gives_for_one(body, i, w, st)?;
    Ok(went)
}
