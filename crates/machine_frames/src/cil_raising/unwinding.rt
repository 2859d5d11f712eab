//! The way to the handler that was found.

ghost use Rattle.std.specs.Prelude.{◌≡◌, ◌∷◌, [], IfOk, OnOk, MatchOption};
ghost use Rattle.rules.specs.step_rules.Raising.{left_in, failing, further, outside, outer, unwind};
ghost use Rattle.machine_words.specs.cil_words.Steps.{next_of};

use crate::cil_raising::clauses::unwound;
use crate::cil_raising::handlers::handler_begins;
use crate::cil_raising::inits::set_init;
use crate::cil_raising::wrapping::wrapper;
use il_base::cil_values::{Frame, Init, Reason, Stack, Started, State, Unwinding, Value, Waits};
use il_base::{NoMemory, Seq};
use machine_words::cil_closing::body_of;
use machine_words::cil_queries::Answers;
use machine_words::cil_words::{StepOut, stuck};
use std::alloc::Global;
use std::mem;

/// The finally and fault clauses that are to run in a frame before the handler is reached, or the frame is left.
#[tactic(auto, unfolding(rules::specs::step_rules::Raising::left_in))]
pub(crate) fn left_in<Q: Answers>(
    alloc: Global,
    q: &Q,
    frame: u64,
    clause: u32,
    f: &Frame,
) -> Result<Stack<u32>, NoMemory>
    ensures { IfOk result (λ left. left ≡ left_in (Q.queries q.now) frame clause f.now) }
{
    let Some(body) = body_of(q, f) else {
        return Ok(Stack::new(alloc));
    };
    let clauses = body.code.clauses.as_slice();
    if f.number != frame || clause as usize >= clauses.len() {
        return unwound(alloc, clauses, f.at);
    }
    unwound(alloc, &clauses[..clause as usize], f.at)
}

/// The first of some numbers, and the rest.
fn first_of(alloc: Global, numbers: &[u32]) -> Result<Option<(u32, Seq<u32>)>, NoMemory>
    ensures { IfOk result (λ parts. MatchOption parts (numbers.now ≡ []) (λ p. numbers.now ≡ p.0 ∷ p.1)) }
{
    if numbers.len() == 0 {
        return Ok(None);
    }
    let rest = Seq::from_slice(alloc, &numbers[1..])?;
    Ok(Some((numbers[0], rest)))
}

/// What an exception becomes where it leaves a frame: where it is wrapped there, the next that was made for it.
fn further(alloc: Global, waits: &Waits, u: Unwinding) -> Result<Unwinding, NoMemory>
    ensures { IfOk result (λ v. v ≡ further waits.now u) }
{
    match wrapper(waits) {
        None => Ok(u),
        Some(_) => next_exception(alloc, u),
    }
}

/// The next exception that was made on the way, if there is one.
fn next_exception(alloc: Global, u: Unwinding) -> Result<Unwinding, NoMemory>
    ensures { IfOk result (λ v. v ≡ (elim u.later [ [] ↦ u | a ∷ later ↦ record u { object = a; later = later } ])) }
{
    let Some((object, later)) = first_of(alloc, u.later.as_slice())? else {
        return Ok(u);
    };
    Ok(Unwinding {
        object,
        later,
        frame: u.frame,
        clause: u.clause,
        left: u.left,
    })
}

/// Notes that an initializer failed, where an exception leaves its frame.
fn failing(
    alloc: Global,
    waits: &Waits,
    later: &[u32],
    inits: Seq<Started>,
) -> Result<Seq<Started>, NoMemory>
    ensures { IfOk result (λ noted. noted ≡ failing waits.now later.now inits) }
{
    match waits {
        Waits::Nothing => Ok(inits),
        Waits::Makes(_) => Ok(inits),
        Waits::MakesValue(_) => Ok(inits),
        Waits::Starts(ty) => match later {
            [] => Ok(inits),
            [a, ..] => set_init(alloc, ty.get(), Init::Failed(*a), inits),
        },
        Waits::Opens(_, _) => Ok(inits),
        Waits::Core(_, _) => Ok(inits),
    }
}

fn with_left(u: Unwinding, left: Stack<u32>) -> Unwinding
    ensures { result ≡ record u { left = left } }
{
    Unwinding {
        object: u.object,
        later: u.later,
        frame: u.frame,
        clause: u.clause,
        left,
    }
}

/// Another frame in place of the top one, which is left.
fn set_top(st: &mut State, f: Frame)
    ensures { st.new ≡ record st.old { top = f } }
{
    st.top = f;
}

/// The top frame is left by an exception, for the frame below it, which is off the stack of frames already.
fn leave_frame<Q: Answers>(
    alloc: Global,
    q: &Q,
    u: Unwinding,
    f: Frame,
    st: &mut State,
) -> Result<Unwinding, NoMemory>
    ensures next { IfOk result (λ v. v ≡ outer (Q.queries q.now) st.old u f) }
    ensures left { OnOk result (st.new ≡ outside st.old u f st.old.below) }
{
    let left = left_in(alloc, q, u.frame, u.clause, &f)?;
    let before = mem::replace(&mut st.inits, Seq::new(alloc));
    st.inits = failing(alloc, &st.top.waits, u.later.as_slice(), before)?;
    let next = further(alloc, &st.top.waits, u)?;
    set_top(st, f);
    Ok(with_left(next, left))
}

/// An exception goes on its way: the next handler of the top frame begins. Each frame without one is left.
pub fn unwind<Q: Answers>(
    alloc: Global,
    q: &Q,
    u: Unwinding,
    st: &mut State,
) -> Result<StepOut, NoMemory>
    ensures { IfOk result (λ out. next_of out st.new [] ≡ unwind (Q.queries q.now) u st.old) }
{
    let mut u = u;
    loop {
        let Some(body) = body_of(q, &st.top) else {
            let Some(f) = st.below.pop() else {
                return Ok(stuck(st));
            };
            u = leave_frame(alloc, q, u, f, st)?;
            continue;
        };
        if let Some(n) = u.left.pop() {
            let stack = Stack::new(alloc);
            return handler_begins(alloc, body.code, n, Reason::Unwinding(u), stack, st);
        }
        if st.top.number == u.frame {
            let mut stack = Stack::new(alloc);
            stack.push(Value::Object(u.object))?;
            let reason = Reason::Caught(u.object);
            return handler_begins(alloc, body.code, u.clause, reason, stack, st);
        }
        let Some(f) = st.below.pop() else {
            return Ok(stuck(st));
        };
        u = leave_frame(alloc, q, u, f, st)?;
    }
}
