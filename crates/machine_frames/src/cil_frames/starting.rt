//! Initializers of types (II.10.5.3).

ghost use Rattle.std.specs.Prelude.{◌≡◌, [], IfOk, MatchOption};
ghost use Rattle.il_base.specs.declared.cil_values.state.State.{State};
ghost use Rattle.il_base.specs.declared.cil_values.state.Init.TheVariants.{Begun};
ghost use Rattle.il_base.specs.declared.cil_values.frame.Waits.TheVariants.{Starts};
ghost use Rattle.rules.specs.step_rules.Next.{Next};
ghost use Rattle.rules.specs.step_rules.Words.{had};
ghost use Rattle.rules.specs.step_rules.Closing.{callee_of};
ghost use Rattle.rules.specs.step_rules.Frames.{begins_by, enter, init_of, initializer, with_init, started};
ghost use Rattle.machine_words.specs.cil_words.Steps.{next_of};

use crate::cil_frames::entering::enter;
use crate::cil_frames::heads::{definition_of, head_has, head_of};
use crate::cil_raising::throw;
use il_base::cil_values::{Init, Started, State, Waits};
use il_base::world_model::{MethodUse, TypeExpr};
use il_base::{Boxed, MethodId, NoMemory, Seq, type_flags};
use machine_words::cil_closing::callee_of;
use machine_words::cil_queries::Answers;
use machine_words::cil_words::{StepOut, stopped};
use std::alloc::Global;

/// With beforefieldinit the accesses to static fields alone begin the initializer (II.10.5.3.1).
fn begins_by<Q: Answers>(q: &Q, by_field: bool, ty: &TypeExpr) -> bool
    ensures { result ≡ begins_by (Q.queries q.now) by_field ty.now }
{
    by_field || !head_has(type_flags::BEFORE_FIELD_INIT, head_of(q, ty))
}

/// The initializer that an access to a closed type begins, to a static field of it or another.
#[tactic(auto, unfolding(rules::specs::step_rules::Frames::initializer))]
pub fn initializer<Q: Answers>(
    alloc: Global,
    q: &Q,
    by_field: bool,
    ty: &TypeExpr,
) -> Result<Option<MethodUse>, NoMemory>
    ensures { IfOk result (λ found. found ≡ initializer (Q.queries q.now) by_field ty.now) }
{
    if !begins_by(q, by_field, ty) {
        return Ok(None);
    }
    let Some(id) = definition_of(ty) else {
        return Ok(None);
    };
    let Some(method) = q.starts(id) else {
        return Ok(None);
    };
    let owner = ty.copy(alloc)?;
    Ok(Some(MethodUse {
        method: MethodId(method),
        owner,
        args: Seq::new(alloc),
    }))
}

/// How far the initializer of a closed type has come. None where it wasn't begun.
#[tactic(auto, unfolding(rules::specs::step_rules::Frames::init_of))]
fn init_of(st: &State, ty: &TypeExpr) -> Option<Init>
    ensures { result ≡ init_of st.now ty.now }
{
    for x in st.inits.as_slice() {
        if x.typ.is_same(ty) {
            return Some(x.init);
        }
    }
    None
}

/// Begins the initializer of a closed type.
fn begin<Q: Answers>(
    alloc: Global,
    q: &Q,
    ty: &TypeExpr,
    used: MethodUse,
    st: &mut State,
) -> Result<StepOut, NoMemory>
    ensures { IfOk result (λ out. next_of out st.new [] ≡ had (callee_of (Q.queries q.now) used) st.old (λ c. enter (Q.queries q.now) c [] (Starts ty.now) (with_init ty.now Begun st.old))) }
{
    let Some(c) = callee_of(alloc, q, used)? else {
        return Ok(stopped(st));
    };
    let typ = ty.copy(alloc)?;
    let owner = ty.copy(alloc)?;
    let waits = Waits::Starts(Boxed::new(alloc, owner)?);
    st.inits.push(Started {
        typ,
        init: Init::Begun,
    })?;
    enter(alloc, q, &c, Seq::new(alloc), waits, st)
}

/// An access to a closed type, to a static field of it or another: where its initializer is due, that is entered, and the
/// instruction comes again. None where the instruction goes on, with the state as it was.
#[tactic(auto, unfolding(rules::specs::step_rules::Frames::started))]
pub fn started<Q: Answers>(
    alloc: Global,
    q: &Q,
    by_field: bool,
    ty: &TypeExpr,
    st: &mut State,
) -> Result<Option<StepOut>, NoMemory>
    ensures { IfOk result (λ over. MatchOption over ((st.new ≡ st.old) × ((f : State → Next) → started (Q.queries q.now) by_field ty.now st.old f ≡ f st.old)) (λ out. (f : State → Next) → started (Q.queries q.now) by_field ty.now st.old f ≡ next_of out st.new [])) }
{
    let Some(used) = initializer(alloc, q, by_field, ty)? else {
        return Ok(None);
    };
    match init_of(st, ty) {
        Some(Init::Begun) => Ok(None),
        Some(Init::Ended) => Ok(None),
        Some(Init::Failed(a)) => {
            let out = throw(alloc, q, a, st)?;
            Ok(Some(out))
        }
        None => {
            let out = begin(alloc, q, ty, used, st)?;
            Ok(Some(out))
        }
    }
}
