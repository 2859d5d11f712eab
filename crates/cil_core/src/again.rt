//! Calls that come again after an initializer (II.10.5.3).

ghost use Rattle.std.specs.Prelude.{◌≡◌, [], IfOk, MatchOption};
ghost use Rattle.il_base.specs.declared.cil_values.state.State.{State};
ghost use Rattle.rules.specs.step_rules.Next.{Next};
ghost use Rattle.rules.specs.step_rules.Frames.{started};
ghost use Rattle.rules.specs.step_rules.CoreWords.{before_call};
ghost use Rattle.machine_words.specs.cil_words.Steps.{next_of};

use il_base::NoMemory;
use il_base::cil_values::{State, Value};
use il_base::world_model::TypeExpr;
use machine_frames::cil_frames::started;
use machine_words::cil_queries::Answers;
use machine_words::cil_words::StepOut;
use std::alloc::Global;

/// The initializer of a type, where it is due, is entered with the arguments of a call back on the evaluation stack. None where it isn't
/// due, with the state as it was.
pub fn started_with<Q: Answers>(
    alloc: Global,
    q: &Q,
    by_field: bool,
    ty: &TypeExpr,
    back: &[Value],
    st: &mut State,
) -> Result<Option<StepOut>, NoMemory>
    ensures { IfOk result (λ over. MatchOption over ((st.new ≡ st.old) × ((f : State → Next) → started (Q.queries q.now) by_field ty.now (before_call back.now st.old) f ≡ f (before_call back.now st.old))) (λ out. (f : State → Next) → started (Q.queries q.now) by_field ty.now (before_call back.now st.old) f ≡ next_of out st.new [])) }
{
    let [v, rest @ ..] = back else {
        return started(alloc, q, by_field, ty, st);
    };
    let copy = v.copy(alloc)?;
    st.top.stack.push(copy)?;
    match started_with(alloc, q, by_field, ty, rest, st)? {
        Some(out) => Ok(Some(out)),
        None => {
            drop(st.top.stack.pop());
            Ok(None)
        }
    }
}
