//! Methods of operands with the running method's arguments put in.

ghost use Rattle.std.specs.Prelude.{◌≡◌, IfOk};
ghost use Rattle.std.specs.Option.{option_map, option_and_then};
ghost use Rattle.rules.specs.step_rules.Closing.{callee_of, closed_method_use};
ghost use Rattle.machine_words.specs.cil_closing.Callees.{callee_by};
ghost use Rattle.machine_words.specs.cil_words.Steps.{here_by};

use crate::cil_closing::callee::{Callee, callee_of};
use crate::cil_closing::closed_types::{closed_args, closed_cell};
use crate::cil_closing::plain::args_of;
use crate::cil_queries::Answers;
use crate::cil_words::Body;
use il_base::NoMemory;
use il_base::cil_values::State;
use il_base::world_model::MethodUse;
use std::alloc::Global;

/// The method of an operand. None where the operand has no meaning in the running method.
pub fn closed_use<'a, Q: Answers>(
    alloc: Global,
    q: &'a Q,
    body: &Body,
    st: &State,
    used: &MethodUse,
) -> Result<Option<Callee<'a>>, NoMemory>
    ensures { IfOk result (λ found. option_map callee_by found ≡ option_and_then (callee_of (Q.queries q.now)) (closed_method_use (Q.queries q.now) (here_by body.now st.now) used.now)) }
{
    let Some(closed) = closed_method_use(alloc, q, body, st, used)? else {
        return Ok(None);
    };
    callee_of(alloc, q, closed)
}

/// A use with the running method's arguments put in. None where it has then no meaning.
#[tactic(auto, unfolding(rules::specs::step_rules::Closing::closed_method_use))]
fn closed_method_use<Q: Answers>(
    alloc: Global,
    q: &Q,
    body: &Body,
    st: &State,
    used: &MethodUse,
) -> Result<Option<MethodUse>, NoMemory>
    ensures { IfOk result (λ closed. closed ≡ closed_method_use (Q.queries q.now) (here_by body.now st.now) used.now) }
{
    let targs = args_of(&st.top.method.owner);
    let margs = st.top.method.args.as_slice();
    let Some(owner) = closed_cell(alloc, q, targs, margs, &used.owner)? else {
        return Ok(None);
    };
    let Some(args) = closed_args(alloc, q, targs, margs, used.args.as_slice())? else {
        return Ok(None);
    };
    Ok(Some(MethodUse {
        method: used.method,
        owner,
        args,
    }))
}
