//! The frame in which a member of the core library runs that reflection calls.

ghost use Rattle.std.specs.Prelude.{◌≡◌, true, [], IfOk, MatchOption};
ghost use Rattle.il_base.specs.declared.cil_values.state.State.{State};
ghost use Rattle.rules.specs.step_rules.Next.{Next};
ghost use Rattle.rules.specs.step_rules.Frames.{started};
ghost use Rattle.rules.specs.step_rules.CoreWords.{caller_in};
ghost use Rattle.machine_words.specs.cil_words.Steps.{next_of};
ghost use Rattle.cil_reflect.specs.Aims.{again};

use cil_core::started_with;
use il_base::NoMemory;
use il_base::cil_values::{State, Value};
use il_base::world_model::TypeExpr;
use machine_words::cil_queries::Answers;
use machine_words::cil_words::StepOut;
use std::alloc::Global;
use std::mem;

/// The frame on top has ended. Where no frame waits below it, it stays.
pub(crate) fn leave(st: &mut State)
    ensures { st.new ≡ caller_in st.old }
{
    if let Some(f) = st.below.pop() {
        st.top = f;
    }
}

/// An access to a static field by a member that reflection calls: where the type's initializer is due, it is entered from the caller's
/// frame, with the arguments of the call by reflection back on its evaluation stack. None where it isn't due, with the state as it was.
fn started_outside<Q: Answers>(
    alloc: Global,
    q: &Q,
    ty: &TypeExpr,
    back: &[Value],
    st: &mut State,
) -> Result<Option<StepOut>, NoMemory>
    ensures { IfOk result (λ over. MatchOption over ((st.new ≡ st.old) × ((f : State → Next) → started (Q.queries q.now) true ty.now (again true back.now st.old) f ≡ f (again true back.now st.old))) (λ out. (f : State → Next) → started (Q.queries q.now) true ty.now (again true back.now st.old) f ≡ next_of out st.new [])) }
{
    let Some(f) = st.below.pop() else {
        return started_with(alloc, q, true, ty, back, st);
    };
    let own = mem::replace(&mut st.top, f);
    match started_with(alloc, q, true, ty, back, st)? {
        Some(out) => Ok(Some(out)),
        None => {
            let caller = mem::replace(&mut st.top, own);
            st.below.push(caller)?;
            Ok(None)
        }
    }
}

/// An access to a static field: where the type's initializer is due, it is entered, and the call comes again after it. None where it
/// isn't due, with the state as it was.
pub(crate) fn started_again<Q: Answers>(
    alloc: Global,
    q: &Q,
    ty: &TypeExpr,
    outside: bool,
    back: &[Value],
    st: &mut State,
) -> Result<Option<StepOut>, NoMemory>
    ensures { IfOk result (λ over. MatchOption over ((st.new ≡ st.old) × ((f : State → Next) → started (Q.queries q.now) true ty.now (again outside back.now st.old) f ≡ f (again outside back.now st.old))) (λ out. (f : State → Next) → started (Q.queries q.now) true ty.now (again outside back.now st.old) f ≡ next_of out st.new [])) }
{
    if outside {
        started_outside(alloc, q, ty, back, st)
    } else {
        started_with(alloc, q, true, ty, back, st)
    }
}
