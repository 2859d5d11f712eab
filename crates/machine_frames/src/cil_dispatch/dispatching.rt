//! The method that a virtual call runs.

ghost use Rattle.std.specs.Prelude.{◌≡◌, IfOk, if◌then◌else◌, not};
ghost use Rattle.il_base.specs.declared.cil_values.state.State.{State};
ghost use Rattle.rules.specs.step_rules.Next.{Next};
ghost use Rattle.rules.specs.step_rules.Closing.{Callee as Called};
ghost use Rattle.rules.specs.step_rules.Dispatch.{dispatched, found_from, found_use};
ghost use Rattle.machine_words.specs.cil_closing.Callees.{callee_by};
ghost use Rattle.machine_frames.specs.cil_dispatch.Found.{goes_to};

use crate::cil_dispatch::methods::{is_abstract, is_called_alike, is_virtual};
use il_base::NoMemory;
use il_base::world_model::{Known, MethodUse, TypeExpr};
use machine_words::cil_closing::{Callee, callee_of};
use machine_words::cil_queries::Answers;
use std::alloc::Global;

/// What dispatch gives.
#[derive(Drop)]
pub enum Target<'a> {
    /// The called method itself runs.
    Itself,
    Other(Callee<'a>),
    Stuck,
    Stopped,
}

/// What a virtual call finds for an object of a closed type, with the call's own arguments.
fn found_use<Q: Answers>(
    alloc: Global,
    q: &Q,
    ty: &TypeExpr,
    c: &Callee,
) -> Result<Option<MethodUse>, NoMemory>
    ensures { IfOk result (λ found. found ≡ found_use (Q.queries q.now) ty.now (callee_by c.now)) }
{
    let Some(found) = q.answers(alloc, ty, &c.called.owner, c.called.method.0)? else {
        return Ok(None);
    };
    let args = TypeExpr::copy_all(alloc, c.called.args.as_slice())?;
    Ok(Some(MethodUse {
        method: found.method,
        owner: found.owner,
        args,
    }))
}

/// The method that is found for an object of a closed type. None, an abstract one, or one that is called otherwise is stuck.
#[tactic(auto, unfolding(rules::specs::step_rules::Dispatch::dispatched))]
pub fn dispatched<'a, Q: Answers>(
    alloc: Global,
    q: &'a Q,
    c: &Callee,
    ty: &TypeExpr,
) -> Result<Target<'a>, NoMemory>
    ensures { IfOk result (λ found. (s : State) → (f : Called → Next) → dispatched (Q.queries q.now) (callee_by c.now) ty.now s f ≡ goes_to found (callee_by c.now) s f) }
{
    let Some(used) = found_use(alloc, q, ty, c)? else {
        return Ok(Target::Stuck);
    };
    let Some(m) = q.method(used.method.0) else {
        return Ok(Target::Stuck);
    };
    if is_abstract(m) {
        return Ok(Target::Stuck);
    }
    let Known::Good(sig) = &m.signature else {
        return Ok(Target::Stopped);
    };
    if !is_called_alike(sig, c.signature.get())? {
        return Ok(Target::Stuck);
    }
    match callee_of(alloc, q, used)? {
        None => Ok(Target::Stopped),
        Some(found) => Ok(Target::Other(found)),
    }
}

/// What `callvirt` finds from a closed type: of a virtual method what answers its slot, another as it is.
#[tactic(auto, unfolding(rules::specs::step_rules::Dispatch::found_from))]
pub fn found_from<'a, Q: Answers>(
    alloc: Global,
    q: &'a Q,
    c: &Callee,
    ty: &TypeExpr,
) -> Result<Target<'a>, NoMemory>
    ensures { IfOk result (λ found. (s : State) → (f : Called → Next) → found_from (Q.queries q.now) (callee_by c.now) ty.now s f ≡ goes_to found (callee_by c.now) s f) }
{
    if is_virtual(c.method) {
        return dispatched(alloc, q, c, ty);
    }
    if is_abstract(c.method) {
        return Ok(Target::Stuck);
    }
    Ok(Target::Itself)
}
