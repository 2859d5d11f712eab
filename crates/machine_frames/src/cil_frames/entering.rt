//! Frames.

ghost use Rattle.std.specs.Prelude.{◌≡◌, ◌+◌, [], ◌∷◌, IfOk, OnOk};
ghost use Rattle.rules.specs.step_rules.Frames.{has_room, frame_of, entered_with, enter};
ghost use Rattle.machine_words.specs.cil_closing.Callees.{callee_by};
ghost use Rattle.machine_words.specs.cil_words.Steps.{next_of};

use crate::cil_frames::locals::zero_locals;
use il_base::cil_values::{Frame, Prefix, Stack, State, Value, Waits};
use il_base::world_model::{Known, MethodUse, TypeExpr};
use il_base::{NoMemory, Seq};
use machine_words::cil_closing::Callee;
use machine_words::cil_queries::Answers;
use machine_words::cil_words::{StepOut, stopped, stuck};
use std::alloc::Global;
use std::mem;

/// The most frames at a time.
const FRAME_LIMIT: usize = 65536;

fn has_room(st: &State) -> bool
    ensures { result ≡ has_room st.now }
{
    st.below.len() < FRAME_LIMIT - 1
}

/// A copy of a use.
pub fn copy_use(alloc: Global, used: &MethodUse) -> Result<MethodUse, NoMemory>
    ensures { IfOk result (λ u. u ≡ used.now) }
{
    let owner = used.owner.copy(alloc)?;
    let args = TypeExpr::copy_all(alloc, used.args.as_slice())?;
    Ok(MethodUse {
        method: used.method,
        owner,
        args,
    })
}

/// A frame on top of the others. One that would be the 18446744073709551616th is answered as want of memory.
fn push_frame(st: &mut State, f: Frame) -> Result<(), NoMemory>
    ensures { OnOk result (st.new ≡ record st.old { top = f; below = st.old.top ∷ st.old.below; entered = st.old.entered + 1 }) }
{
    if st.entered == u64::MAX {
        return Err(NoMemory);
    }
    let caller = mem::replace(&mut st.top, f);
    st.below.push(caller)?;
    st.entered += 1;
    Ok(())
}

/// A frame of a method that begins, with these arguments and locals, as its slots keep them.
fn frame_of(
    alloc: Global,
    c: &Callee,
    args: Seq<Value>,
    locals: Seq<Value>,
    waits: Waits,
    st: &State,
) -> Result<Frame, NoMemory>
    ensures { IfOk result (λ f. f ≡ frame_of st.now.entered (callee_by c.now).called args locals waits) }
{
    let method = copy_use(alloc, &c.called)?;
    Ok(Frame {
        number: st.entered,
        method,
        args,
        locals,
        stack: Stack::new(alloc),
        at: 0,
        prefix: Prefix::None,
        running: Stack::new(alloc),
        waits,
    })
}

/// Enters a method with these arguments and locals, as its slots keep them. The top frame waits.
pub fn enter_with(
    alloc: Global,
    c: &Callee,
    args: Seq<Value>,
    locals: Seq<Value>,
    waits: Waits,
    st: &mut State,
) -> Result<(), NoMemory>
    ensures { OnOk result (st.new ≡ entered_with (callee_by c.now) args locals waits st.old) }
{
    let frame = frame_of(alloc, c, args, locals, waits, st)?;
    push_frame(st, frame)
}

/// Enters a method with these arguments, as its slots keep them. The top frame waits.
#[tactic(auto, unfolding(rules::specs::step_rules::Frames::enter))]
pub fn enter<Q: Answers>(
    alloc: Global,
    q: &Q,
    c: &Callee,
    args: Seq<Value>,
    waits: Waits,
    st: &mut State,
) -> Result<StepOut, NoMemory>
    ensures { IfOk result (λ out. next_of out st.new [] ≡ enter (Q.queries q.now) (callee_by c.now) args waits st.old) }
{
    let Some(body) = &c.method.body else {
        return Ok(stuck(st));
    };
    let Known::Good(code) = body else {
        return Ok(stopped(st));
    };
    let Some(locals) = zero_locals(alloc, q, &c.called, code)? else {
        return Ok(stopped(st));
    };
    if !has_room(st) {
        return Ok(stopped(st));
    }
    enter_with(alloc, c, args, locals, waits, st)?;
    Ok(StepOut::Went)
}
