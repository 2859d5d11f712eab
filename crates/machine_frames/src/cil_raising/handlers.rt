//! Handlers that run.

ghost use Rattle.std.specs.Prelude.{◌≡◌, [], IfOk};
ghost use Rattle.std.specs.Option.{option_copied};
ghost use Rattle.rules.specs.step_rules.Raising.{is_in, still_running, handler_begins};
ghost use Rattle.machine_words.specs.cil_words.Steps.{next_of};

use crate::cil_raising::clauses::is_in_handler;
use il_base::NoMemory;
use il_base::cil_values::{Clause, Code, Prefix, Reason, Running, Stack, State, Value};
use machine_words::cil_words::{StepOut, stuck};
use std::alloc::Global;
use std::mem;

/// Whether an IL offset lies in the handler of a clause that is there.
fn is_in(c: Option<&Clause>, at: u32) -> bool
    ensures { result ≡ is_in (option_copied c.entry) at }
{
    match c {
        None => false,
        Some(c) => is_in_handler(c, at),
    }
}

/// Those of some handlers in which an IL offset lies.
#[tactic(auto, unfolding(rules::specs::step_rules::Raising::still_running))]
pub fn still_running(
    alloc: Global,
    code: &Code,
    at: u32,
    running: Stack<Running>,
) -> Result<Stack<Running>, NoMemory>
    ensures { IfOk result (λ left. left ≡ still_running code.now at running) }
{
    let mut left = Stack::new(alloc);
    for r in running.into_vec() {
        if is_in(code.clauses.get(r.clause as usize), at) {
            left.push(r)?;
        }
    }
    Ok(left)
}

/// The handler of a clause of the top frame begins, with this evaluation stack. The clause goes by its place.
#[tactic(auto, unfolding(rules::specs::step_rules::Raising::handler_begins))]
pub fn handler_begins(
    alloc: Global,
    code: &Code,
    n: u32,
    reason: Reason,
    stack: Stack<Value>,
    st: &mut State,
) -> Result<StepOut, NoMemory>
    ensures { IfOk result (λ out. next_of out st.new [] ≡ handler_begins code.now n reason stack st.old) }
{
    let Some(c) = code.clauses.get(n as usize) else {
        return Ok(stuck(st));
    };
    let before = mem::replace(&mut st.top.running, Stack::new(alloc));
    let mut running = still_running(alloc, code, c.at, before)?;
    running.push(Running { clause: n, reason })?;
    st.top.running = running;
    st.top.at = c.at;
    st.top.stack = stack;
    st.top.prefix = Prefix::None;
    Ok(StepOut::Went)
}
