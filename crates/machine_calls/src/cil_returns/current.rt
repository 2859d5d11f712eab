//! The instruction of a frame.

ghost use Rattle.std.specs.Prelude.{◌≡◌, Some, None, MatchOption};
ghost use Rattle.rules.specs.step_rules.Words.{here_in};
ghost use Rattle.machine_calls.specs.cil_returns.Running.{running_of};

use il_base::cil_values::{Frame, Instruction};
use machine_words::cil_closing::body_of;
use machine_words::cil_queries::Answers;
use machine_words::cil_words::Body;

/// What a frame runs, with the instruction at its offset.
#[derive(Clone, Copy)]
pub struct Current<'a> {
    pub body: Body<'a>,
    pub instruction: &'a Instruction,
}

/// What a frame runs, with its instruction. None where its method has no body that can run, or no instruction begins at its
/// offset.
pub fn running<'a, Q: Answers>(q: &'a Q, f: &Frame) -> Option<Current<'a>>
    ensures { MatchOption result (running_of (Q.queries q.now) f.now ≡ None) (λ r. running_of (Q.queries q.now) f.now ≡ Some (here_in f.now r.body.method.now r.body.code.now, r.instruction.now)) }
{
    let Some(body) = body_of(q, f) else {
        return None;
    };
    let Some(instruction) = q.instruction(f.method.method.0, f.at) else {
        return None;
    };
    Some(Current { body, instruction })
}
