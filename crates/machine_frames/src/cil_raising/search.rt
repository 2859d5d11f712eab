//! The search for the clause that catches an exception.

ghost use Rattle.std.specs.Prelude.{◌≡◌, ℕ, List, ◌&&◌, [], ◌∷◌, ◌++◌, length, slice_get, IfOk, OnOk};
ghost use Rattle.std.specs.Option.{option_copied};
ghost use Rattle.rules.specs.step_rules.Words.{here_in, in_try};
ghost use Rattle.il_base.specs.declared.cil_values.state.State.{State};
ghost use Rattle.il_base.specs.declared.cil_values.frame.Frame.{Frame};
ghost use Rattle.rules.specs.step_rules.Next.{Next};
ghost use Rattle.rules.specs.step_rules.Objects.{wrapping};
ghost use Rattle.rules.specs.step_rules.Raising.{Found, is_catch, catches_by, caught_type, clause_for, found_in, passed_on, unwinding_to, throw, raise};
ghost use Rattle.machine_frames.specs.cil_raising.Searches.{found_by, look_by};
ghost use Rattle.machine_words.specs.cil_words.Steps.{next_of};

use crate::cil_raising::clauses::{is_catch, is_in_try};
use crate::cil_raising::unwinding::{left_in, unwind};
use crate::cil_raising::wrapping::wrapper;
use il_base::cil_values::{Clause, Frame, Stack, State, Unwinding};
use il_base::core_table::CoreName;
use il_base::world_model::{Known, TypeExpr};
use il_base::{NoMemory, Seq};
use machine_words::cil_closing::{args_of, body_of, closed_slot};
use machine_words::cil_objects::{is_a, new_exception, threw, wrapping};
use machine_words::cil_queries::Answers;
use machine_words::cil_words::{Body, StepOut, stopped};
use std::alloc::Global;

/// What a frame has for an exception.
#[derive(Clone, Copy)]
pub enum Hit {
    Nothing,
    /// A clause whose type has no meaning is looked at.
    BadClause,
    /// The clause that catches it, by its place.
    ByClause(u32),
}

/// Whether a clause catches, and an IL offset lies in its try block.
fn is_around(c: &Clause, at: u32) -> bool
    ensures { result ≡ (is_catch c.now && in_try c.now at) }
{
    is_catch(c) && is_in_try(c, at)
}

/// The type that a catch clause catches, in the method of a frame. None where it has no meaning.
fn caught_type<Q: Answers>(
    alloc: Global,
    q: &Q,
    body: &Body,
    f: &Frame,
    c: &Clause,
) -> Result<Option<TypeExpr>, NoMemory>
    ensures { IfOk result (λ ty. ty ≡ caught_type (Q.queries q.now) (here_in f.now body.now.method.now body.now.code.now) c.now) }
{
    match &c.caught {
        Known::Bad(_) => Ok(None),
        Known::Good(ty) => {
            let targs = args_of(&f.method.owner);
            closed_slot(alloc, q, targs, f.method.args.as_slice(), ty)
        }
    }
}

/// What a catch clause says to an exception that was raised in its try block.
#[derive(Clone, Copy)]
pub enum Look {
    Passes,
    /// Its type has no meaning.
    Bad,
    Catches,
}

/// Whether a catch clause has a type that the exception is of.
fn look_at<Q: Answers>(
    alloc: Global,
    q: &Q,
    st: &State,
    a: u32,
    body: &Body,
    f: &Frame,
    c: &Clause,
) -> Result<Look, NoMemory>
    ensures { IfOk result (λ look. (n : ℕ) → (rest : Found) → catches_by (Q.queries q.now) st.now a n (caught_type (Q.queries q.now) (here_in f.now body.now.method.now body.now.code.now) c.now) rest ≡ look_by look n rest) }
{
    let Some(ty) = caught_type(alloc, q, body, f, c)? else {
        return Ok(Look::Bad);
    };
    if is_a(alloc, q, st, &ty, a)? {
        return Ok(Look::Catches);
    }
    Ok(Look::Passes)
}

/// The first catch clause of a body whose try block has the frame's offset, and whose type the exception is of.
fn clause_for<Q: Answers>(
    alloc: Global,
    q: &Q,
    st: &State,
    a: u32,
    body: &Body,
    f: &Frame,
) -> Result<Hit, NoMemory>
    ensures { IfOk result (λ found. found_by found ≡ clause_for (Q.queries q.now) (here_in f.now body.now.method.now body.now.code.now) st.now a f.now.at 0 body.now.code.now.clauses) }
{
    let clauses = body.code.clauses.as_slice();
    if clauses.len() > u32::MAX as usize {
        return Err(NoMemory);
    }
    for (n, c) in clauses.iter().enumerate() {
        if is_around(c, f.at) {
            match look_at(alloc, q, st, a, body, f, c) {
                Err(error) => return Err(error),
                Ok(Look::Bad) => return Ok(Hit::BadClause),
                Ok(Look::Catches) => return Ok(Hit::ByClause(n as u32)),
                Ok(Look::Passes) => {}
            }
        }
    }
    Ok(Hit::Nothing)
}

/// What a frame has for the exception with a number.
#[tactic(auto, unfolding(rules::specs::step_rules::Raising::found_in))]
fn found_in<Q: Answers>(
    alloc: Global,
    q: &Q,
    st: &State,
    a: u32,
    f: &Frame,
) -> Result<Hit, NoMemory>
    ensures { IfOk result (λ found. found_by found ≡ found_in (Q.queries q.now) st.now a f.now) }
{
    let Some(body) = body_of(q, f) else {
        return Ok(Hit::Nothing);
    };
    clause_for(alloc, q, st, a, &body, f)
}

/// The frame with a number among those that wait, counted from the innermost.
fn waiting_at(frames: &Stack<Frame>, k: usize) -> Option<&Frame>
    ensures { option_copied result ≡ slice_get frames.now k }
{
    let below = frames.as_slice();
    if k >= below.len() {
        return None;
    }
    let at = below.len() - (k + 1);
    Some(&below[at])
}

/// The frame with a number, counted from the top.
fn frame_at(st: &State, k: usize) -> Option<&Frame>
    ensures { option_copied result ≡ slice_get (st.now.top ∷ st.now.below) k }
{
    if k == 0 {
        return Some(&st.top);
    }
    waiting_at(&st.below, k - 1)
}

/// The exception of the top frame on its way to the clause of a frame that catches it.
fn unwinding_to<Q: Answers>(
    alloc: Global,
    q: &Q,
    first: u32,
    later: Seq<u32>,
    st: &State,
    frame: u64,
    clause: u32,
) -> Result<Unwinding, NoMemory>
    ensures { IfOk result (λ u. (f : Frame) → f.number ≡ frame → unwinding_to (Q.queries q.now) first later st.now f clause ≡ u) }
{
    let left = left_in(alloc, q, frame, clause, &st.top)?;
    Ok(Unwinding {
        object: first,
        later,
        frame,
        clause,
        left,
    })
}

/// A new exception of the core library with this one as its inner one. Gives its number.
fn wrapped<Q: Answers>(
    alloc: Global,
    q: &Q,
    name: CoreName,
    a: u32,
    st: &mut State,
) -> Result<u32, NoMemory>
    ensures at { IfOk result (λ b. b ≡ length st.old.heap) }
    ensures made { OnOk result (st.new ≡ record st.old { heap = st.old.heap ++ wrapping (Q.queries q.now) name a ∷ [] }) }
{
    let wrapped = wrapping(alloc, q, name, a)?;
    st.heap.add(wrapped)
}

/// The exception as it is outside of a frame, where it may be wrapped. Gives its number, and notes each new one.
fn passed_on<Q: Answers>(
    alloc: Global,
    q: &Q,
    outside: Option<CoreName>,
    a: u32,
    later: &mut Seq<u32>,
    st: &mut State,
) -> Result<u32, NoMemory>
    ensures next { IfOk result (λ b. (f : ℕ → List ℕ → State → Next) → passed_on (Q.queries q.now) outside a later.old st.old f ≡ f b later.new st.new) }
    ensures frames { OnOk result ((st.new.top ≡ st.old.top) × (st.new.below ≡ st.old.below)) }
{
    let Some(name) = outside else {
        return Ok(a);
    };
    let b = wrapped(alloc, q, name, a, st)?;
    later.push(b)?;
    Ok(b)
}

/// The instruction of the top frame raises an exception, by its object. The search goes by what the exception is in each frame:
/// where it leaves an initializer or what reflection called, it becomes the inner one of another.
pub fn throw<Q: Answers>(alloc: Global, q: &Q, a: u32, st: &mut State) -> Result<StepOut, NoMemory>
    ensures { IfOk result (λ out. next_of out st.new [] ≡ throw (Q.queries q.now) a st.old) }
{
    let first = a;
    let mut thrown = a;
    let mut later = Seq::new(alloc);
    let waiting = st.below.len();
    if waiting > u32::MAX as usize {
        return Err(NoMemory);
    }
    for k in 0..waiting + 1 {
        let Some(f) = frame_at(st, k) else {
            return Err(NoMemory);
        };
        let number = f.number;
        let outside = wrapper(&f.waits);
        match found_in(alloc, q, st, thrown, f) {
            Err(error) => return Err(error),
            Ok(Hit::BadClause) => return Ok(stopped(st)),
            Ok(Hit::ByClause(n)) => {
                let u = unwinding_to(alloc, q, first, later, st, number, n)?;
                return unwind(alloc, q, u, st);
            }
            Ok(Hit::Nothing) => {}
        }
        thrown = passed_on(alloc, q, outside, thrown, &mut later, st)?;
    }
    threw(alloc, q, st, thrown)
}

/// The instruction of the top frame raises a new exception of the core library.
#[tactic(auto, unfolding(rules::specs::step_rules::Raising::raise))]
pub fn raise<Q: Answers>(
    alloc: Global,
    q: &Q,
    name: CoreName,
    st: &mut State,
) -> Result<StepOut, NoMemory>
    ensures { IfOk result (λ out. next_of out st.new [] ≡ raise (Q.queries q.now) name st.old) }
{
    let made = new_exception(alloc, q, name)?;
    let a = st.heap.add(made)?;
    throw(alloc, q, a, st)
}
