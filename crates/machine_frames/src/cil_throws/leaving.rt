//! `leave` and `endfinally`.

ghost use Rattle.std.specs.Prelude.{◌≡◌, [], IfOk};
ghost use Rattle.rules.specs.step_rules.Raising.{places_of};
ghost use Rattle.rules.specs.step_rules.Throws.{end_finally, goes_on, is_crossed, leave, leave_through, leaves, may_leave, may_leave_by};
ghost use Rattle.machine_words.specs.cil_words.Steps.{here_by, next_of};

use crate::cil_raising::{
    handler_begins, is_catch, is_finally, is_in_handler, is_in_try, still_running, unwind,
};
use crate::cil_throws::innermost::innermost;
use crate::cil_throws::reasons::{copy_reason, reason_of};
use il_base::NoMemory;
use il_base::cil_values::{Clause, Code, Instruction, Prefix, Reason, Stack, State, Use};
use machine_words::cil_queries::Answers;
use machine_words::cil_words::{Body, StepOut, stuck};
use std::alloc::Global;
use std::mem;

/// Whether `leave` may go past a clause: not out of a finally or fault handler, and into no handler.
fn may_leave_by(c: &Clause, at: u32, to: u32) -> bool
    ensures { result ≡ may_leave_by at to c.now }
{
    let in_handler = is_in_handler(c, at);
    let to_handler = is_in_handler(c, to);
    let bound = in_handler && !is_catch(c);
    (!bound || to_handler) && (!to_handler || in_handler)
}

/// Whether `leave` may go from one IL offset to another (I.12.4.2.8).
#[tactic(auto, unfolding(rules::specs::step_rules::Throws::may_leave))]
fn may_leave(code: &Code, at: u32, to: u32) -> bool
    ensures { result ≡ may_leave code.now at to }
{
    code.clauses
        .as_slice()
        .iter()
        .all(|c| may_leave_by(c, at, to))
}

/// Whether the way from one IL offset to another leaves the try block of a finally clause.
fn is_crossed(c: &Clause, at: u32, to: u32) -> bool
    ensures { result ≡ is_crossed at to c.now }
{
    is_finally(c) && is_in_try(c, at) && !is_in_try(c, to)
}

/// The finally clauses that are crossed, the inner ones first, by their places. A section of 4294967296 clauses is answered as
/// want of memory.
fn crossed_in(alloc: Global, clauses: &[Clause], at: u32, to: u32) -> Result<Stack<u32>, NoMemory>
    ensures { IfOk result (λ places. places ≡ places_of (is_crossed at to) 0 clauses.now) }
{
    if clauses.len() > u32::MAX as usize {
        return Err(NoMemory);
    }
    let mut places = Stack::new(alloc);
    for n in (0..clauses.len()).rev() {
        if is_crossed(&clauses[n], at, to) {
            places.push(n as u32)?;
        }
    }
    Ok(places)
}

/// The top frame goes on at an IL offset, with an empty stack.
#[tactic(auto, unfolding(rules::specs::step_rules::Throws::leave_through))]
fn arrives(alloc: Global, code: &Code, to: u32, st: &mut State) -> Result<StepOut, NoMemory>
    ensures { IfOk result (λ out. next_of out st.new [] ≡ leave_through code.now [] to st.old) }
{
    let before = mem::replace(&mut st.top.running, Stack::new(alloc));
    st.top.running = still_running(alloc, code, to, before)?;
    st.top.at = to;
    st.top.stack = Stack::new(alloc);
    st.top.prefix = Prefix::None;
    Ok(StepOut::Went)
}

/// Through these finally handlers, one in a step, to an IL offset.
#[tactic(auto, unfolding(rules::specs::step_rules::Throws::leave_through))]
fn leave_through(
    alloc: Global,
    code: &Code,
    left: Stack<u32>,
    to: u32,
    st: &mut State,
) -> Result<StepOut, NoMemory>
    ensures { IfOk result (λ out. next_of out st.new [] ≡ leave_through code.now left to st.old) }
{
    let mut left = left;
    match left.pop() {
        None => arrives(alloc, code, to, st),
        Some(n) => {
            let stack = Stack::new(alloc);
            handler_begins(alloc, code, n, Reason::Leaving(left, to), stack, st)
        }
    }
}

#[tactic(auto, unfolding(rules::specs::step_rules::Throws::crossed))]
fn leaves(alloc: Global, body: &Body, to: u32, st: &mut State) -> Result<StepOut, NoMemory>
    ensures { IfOk result (λ out. next_of out st.new [] ≡ leaves (here_by body.now st.old) st.old to) }
{
    if !may_leave(body.code, st.top.at, to) {
        return Ok(stuck(st));
    }
    let through = crossed_in(alloc, body.code.clauses.as_slice(), st.top.at, to)?;
    leave_through(alloc, body.code, through, to, st)
}

/// `leave` (III.3.46).
#[tactic(auto, unfolding(rules::specs::step_rules::Throws::leave))]
pub fn leave<Q: Answers>(
    alloc: Global,
    q: &Q,
    body: &Body,
    i: &Instruction,
    st: &mut State,
) -> Result<StepOut, NoMemory>
    ensures { IfOk result (λ out. next_of out st.new [] ≡ leave (Q.queries q.now) (here_by body.now st.old) i.now st.old) }
{
    match &i.operand {
        Use::Target(to) => leaves(alloc, body, *to, st),
        Use::Nothing => Ok(stuck(st)),
        Use::Number(_) => Ok(stuck(st)),
        Use::Slot(_) => Ok(stuck(st)),
        Use::Targets(_) => Ok(stuck(st)),
        Use::Typ(_) => Ok(stuck(st)),
        Use::Method(_) => Ok(stuck(st)),
        Use::Field(_) => Ok(stuck(st)),
        Use::Text(_) => Ok(stuck(st)),
    }
}

/// Goes on with what entered a handler.
fn goes_on<Q: Answers>(
    alloc: Global,
    q: &Q,
    code: &Code,
    reason: Reason,
    st: &mut State,
) -> Result<StepOut, NoMemory>
    ensures { IfOk result (λ out. next_of out st.new [] ≡ goes_on (Q.queries q.now) code.now st.old reason) }
{
    match reason {
        Reason::Leaving(left, to) => leave_through(alloc, code, left, to, st),
        Reason::Unwinding(u) => unwind(alloc, q, u, st),
        Reason::Caught(_) => Ok(stuck(st)),
    }
}

/// `endfinally` and `endfault` (III.3.35).
#[tactic(auto, unfolding(rules::specs::step_rules::Throws::end_finally))]
pub fn end_finally<Q: Answers>(
    alloc: Global,
    q: &Q,
    body: &Body,
    _i: &Instruction,
    st: &mut State,
) -> Result<StepOut, NoMemory>
    ensures { IfOk result (λ out. next_of out st.new [] ≡ end_finally (Q.queries q.now) (here_by body.now st.old) _i.now st.old) }
{
    let Some(place) = innermost(body.code, st.top.at) else {
        return Ok(stuck(st));
    };
    let Some(reason) = reason_of(place, &st.top.running) else {
        return Ok(stuck(st));
    };
    let reason = copy_reason(alloc, reason)?;
    goes_on(alloc, q, body.code, reason, st)
}
