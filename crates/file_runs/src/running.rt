//! The steps of a run, each with what it prints.

ghost use Rattle.std.specs.Prelude.{◌≡◌, ◌≤◌, ◌-◌};
ghost use Rattle.rules.specs.step_rules.Run.{run, run_begun, run_from};
ghost use Rattle.rules.specs.step_rules.Step.{step};
ghost use Rattle.cil_machine.specs.Begun.{beginning_by};
ghost use Rattle.file_runs.specs.Steps.{RunsTo, TurnsTo};

use crate::fault::RunFault;
use cil_machine::{Beginning, begin, quiet_steps, step};
use il_base::cil_values::{End, State};
use il_outside::{Sink, SinkError, write_all};
use machine_words::cil_queries::Answers;
use machine_words::cil_words::StepOut;
use std::alloc::Global;

/// A step, and then the writing of what it printed.
fn turn<Q: Answers, O: Sink>(
    alloc: Global,
    q: &Q,
    st: &mut State,
    out: &mut O,
) -> Result<StepOut, RunFault>
    ensures { TurnsTo (step (Q.queries q.now) st.old) st.new (O.state out.old) (O.state out.new) result }
{
    let mut printed = Vec::new(alloc);
    match step(alloc, q, st, &mut printed) {
        Err(_) => Err(RunFault::NoMemory),
        Ok(StepOut::Over(end)) => Ok(StepOut::Over(end)),
        Ok(StepOut::Went) => match write_all(out, printed.as_slice()) {
            Ok(()) => Ok(StepOut::Went),
            Err(SinkError::Failed) => Err(RunFault::Write),
            Err(SinkError::NoMemory) => Err(RunFault::NoMemory),
        },
    }
}

/// At most `n` steps. Those of simple instructions are made many at once.
fn steps<Q: Answers, O: Sink>(
    alloc: Global,
    q: &Q,
    st: &mut State,
    n: u64,
    out: &mut O,
) -> Result<Option<End>, RunFault>
    ensures { RunsTo (run (Q.queries q.now) n st.old) (O.state out.old) (O.state out.new) result }
{
    let mut left = n;
    while left > 0 {
        match quiet_steps(alloc, q, st, left - 1) {
            Err(_) => return Err(RunFault::NoMemory),
            Ok(made) => left -= made,
        }
        match turn(alloc, q, st, out) {
            Err(fault) => return Err(fault),
            Ok(StepOut::Over(end)) => return Ok(Some(end)),
            Ok(StepOut::Went) => {}
        }
        left -= 1;
    }
    Ok(None)
}

/// At most `n` steps from a state.
fn steps_from<Q: Answers, O: Sink>(
    alloc: Global,
    q: &Q,
    first: State,
    n: u64,
    out: &mut O,
) -> Result<Option<End>, RunFault>
    ensures { RunsTo (run (Q.queries q.now) n first) (O.state out.old) (O.state out.new) result }
{
    let mut st = first;
    let ended = steps(alloc, q, &mut st, n, out);
    drop(st);
    ended
}

/// The run that begins so, with at least one step.
fn run_begun<Q: Answers, O: Sink>(
    alloc: Global,
    q: &Q,
    beginning: Beginning,
    n: u64,
    out: &mut O,
) -> Result<Option<End>, RunFault>
    requires { 1 ≤ n }
    ensures { RunsTo (run_begun (Q.queries q.now) (n - 1) (beginning_by beginning)) (O.state out.old) (O.state out.new) result }
{
    match beginning {
        Beginning::Ends(end) => Ok(Some(end)),
        Beginning::Begins(first) => steps_from(alloc, q, first, n, out),
    }
}

/// At most `n` steps from an entry method, by its place in the world, with the bytes of the input. What a step prints is
/// written after that step. None is a run that goes on.
#[tactic(auto, unfolding(rules::specs::step_rules::Run::run_from))]
pub(crate) fn run_to<Q: Answers, O: Sink>(
    alloc: Global,
    q: &Q,
    entry: u32,
    input: &[u8],
    n: u64,
    out: &mut O,
) -> Result<Option<End>, RunFault>
    ensures { RunsTo (run_from (Q.queries q.now) entry input.now n) (O.state out.old) (O.state out.new) result }
{
    if n == 0 {
        return Ok(None);
    }
    match begin(alloc, q, entry, input) {
        Err(_) => Err(RunFault::NoMemory),
        Ok(beginning) => run_begun(alloc, q, beginning, n, out),
    }
}
