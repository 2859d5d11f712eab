//! What an instruction comes to that looks at the state and gives one value, or none.

ghost use Rattle.std.specs.Prelude.{◌≡◌, [], drop, IfOk};
ghost use Rattle.machine_words.specs.cil_words.Steps.{next_of, here_by};
ghost use Rattle.machine_numbers.specs.cil_operands.Outcomes.{outcome_of, refused};

use crate::cil_operands::operands::gives;
use crate::cil_operands::refusal::Refusal;
use il_base::NoMemory;
use il_base::cil_values::{Instruction, State, Value};
use machine_frames::cil_raising::raise;
use machine_words::cil_queries::Answers;
use machine_words::cil_words::{Body, StepOut, stopped, stuck};
use std::alloc::Global;

/// Raises the exception, or ends the run, as the refusal says. All operands are still on the stack.
#[tactic(auto, unfolding(crate::specs::cil_operands::Outcomes::refused))]
pub fn refuse<Q: Answers>(
    alloc: Global,
    q: &Q,
    why: Refusal,
    st: &mut State,
) -> Result<StepOut, NoMemory>
    ensures { IfOk result (λ out. next_of out st.new [] ≡ refused (Q.queries q.now) st.old why) }
{
    match why {
        Refusal::Raises(name) => raise(alloc, q, name, st),
        Refusal::Stopped => Ok(stopped(st)),
        Refusal::Stuck => Ok(stuck(st)),
    }
}

/// Puts what an instruction gives in the place of its operands, of which there are this many.
#[tactic(auto, unfolding(crate::specs::cil_operands::Outcomes::outcome_of))]
pub fn comes_to<Q: Answers>(
    alloc: Global,
    q: &Q,
    body: &Body,
    i: &Instruction,
    operands: usize,
    outcome: Result<Value, Refusal>,
    st: &mut State,
) -> Result<StepOut, NoMemory>
    ensures { IfOk result (λ out. next_of out st.new [] ≡ outcome_of (Q.queries q.now) (here_by body.now st.old) i.now st.old (drop operands st.old.top.stack) outcome) }
{
    match outcome {
        Ok(v) => gives(body, i, operands, v, st),
        Err(why) => refuse(alloc, q, why, st),
    }
}
