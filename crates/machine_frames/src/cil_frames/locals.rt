//! What locals hold at first (II.25.4.4).

ghost use Rattle.std.specs.Prelude.{◌≡◌, IfOk};
ghost use Rattle.rules.specs.step_rules.Closing.{all_of};
ghost use Rattle.rules.specs.step_rules.Frames.{zero_local, zero_locals};

use il_base::cil_values::{Code, Value};
use il_base::world_model::{Known, MethodUse, TypeExpr};
use il_base::{NoMemory, Seq};
use machine_words::cil_closing::{args_of, closed_slot};
use machine_words::cil_queries::Answers;
use machine_words::cil_stores::zero_of;
use std::alloc::Global;

/// What a local of an open type holds at first, in a closed method.
fn zero_local<Q: Answers>(
    alloc: Global,
    q: &Q,
    called: &MethodUse,
    ty: &TypeExpr,
) -> Result<Option<Value>, NoMemory>
    ensures { IfOk result (λ value. value ≡ zero_local (Q.queries q.now) called.now ty.now) }
{
    let targs = args_of(&called.owner);
    let Some(closed) = closed_slot(alloc, q, targs, called.args.as_slice(), ty)? else {
        return Ok(None);
    };
    zero_of(alloc, q, &closed)
}

fn zeros<Q: Answers>(
    alloc: Global,
    q: &Q,
    called: &MethodUse,
    types: &[TypeExpr],
) -> Result<Option<Seq<Value>>, NoMemory>
    ensures { IfOk result (λ values. values ≡ all_of (zero_local (Q.queries q.now) called.now) types.now) }
{
    let mut values = Vec::with_capacity(alloc, types.len())?;
    for ty in types {
        match zero_local(alloc, q, called, ty) {
            Err(error) => return Err(error),
            Ok(None) => return Ok(None),
            Ok(Some(value)) => values.push(value)?,
        }
    }
    Ok(Some(Seq::from_vec(values)))
}

/// What the locals of a closed method hold at first. None where the type of one has no meaning or no zero value.
#[tactic(auto, unfolding(rules::specs::step_rules::Frames::zero_locals))]
pub fn zero_locals<Q: Answers>(
    alloc: Global,
    q: &Q,
    called: &MethodUse,
    code: &Code,
) -> Result<Option<Seq<Value>>, NoMemory>
    ensures { IfOk result (λ values. values ≡ zero_locals (Q.queries q.now) called.now code.now) }
{
    match &code.locals {
        Known::Bad(_) => Ok(None),
        Known::Good(types) => zeros(alloc, q, called, types.as_slice()),
    }
}
