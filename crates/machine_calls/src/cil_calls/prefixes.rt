//! Prefixes (III.2).

ghost use Rattle.std.specs.Prelude.{◌≡◌, [], IfOk};
ghost use Rattle.rules.specs.step_rules.Calls.{goes_under, other_prefix, prefix};
ghost use Rattle.il_base.specs.declared.cil_values.frame.Prefix.TheVariants as prefixed;
ghost use Rattle.rules.specs.step_rules.Closing.{closed};
ghost use Rattle.il_base.specs.declared.world_model.known.Known.TheVariants.{Good};
ghost use Rattle.machine_words.specs.cil_words.Steps.{here_by, next_of};

use il_base::cil_values::{Instruction, Prefix, State, Use};
use il_base::world_model::{Known, TypeExpr};
use il_base::{Boxed, NoMemory, opcode};
use machine_words::cil_closing::{args_of, closed_slot};
use machine_words::cil_queries::Answers;
use machine_words::cil_words::{Body, StepOut, may_go, stopped, stuck};
use std::alloc::Global;

/// The next instruction comes under a prefix, whatever it is.
fn goes_under(body: &Body, i: &Instruction, p: Prefix, st: &mut State) -> StepOut
    ensures { next_of result st.new [] ≡ goes_under (here_by body.now st.old) i.now st.old p }
{
    if !may_go(body.code, i.at, i.next) {
        return stuck(st);
    }
    st.top.at = i.next;
    st.top.prefix = p;
    StepOut::Went
}

/// `constrained.` with a type that has a meaning of its own.
#[tactic(auto, unfolding(rules::specs::step_rules::Closing::closed))]
fn constrains<Q: Answers>(
    alloc: Global,
    q: &Q,
    body: &Body,
    i: &Instruction,
    ty: &TypeExpr,
    st: &mut State,
) -> Result<StepOut, NoMemory>
    ensures { IfOk result (λ out. next_of out st.new [] ≡ closed (Q.queries q.now) (here_by body.now st.old) (Good ty.now) st.old (λ c. goes_under (here_by body.now st.old) i.now st.old (prefixed.Constrained c))) }
{
    let targs = args_of(&st.top.method.owner);
    let Some(closed) = closed_slot(alloc, q, targs, st.top.method.args.as_slice(), ty)? else {
        return Ok(stopped(st));
    };
    let closed = Boxed::new(alloc, closed)?;
    Ok(goes_under(body, i, Prefix::Constrained(closed), st))
}

/// `constrained.` (III.2.1), `readonly.` (III.2.3) and `volatile.` (III.2.6), which says nothing here.
#[tactic(auto, unfolding(rules::specs::step_rules::Calls::prefix, rules::specs::step_rules::Closing::closed))]
pub fn prefix<Q: Answers>(
    alloc: Global,
    q: &Q,
    body: &Body,
    i: &Instruction,
    st: &mut State,
) -> Result<StepOut, NoMemory>
    ensures { IfOk result (λ out. next_of out st.new [] ≡ prefix (Q.queries q.now) (here_by body.now st.old) i.now st.old) }
{
    if i.opcode == opcode::READONLY {
        return Ok(goes_under(body, i, Prefix::Readonly, st));
    }
    if i.opcode != opcode::CONSTRAINED {
        return Ok(goes_under(body, i, Prefix::None, st));
    }
    match &i.operand {
        Use::Typ(Known::Good(ty)) => constrains(alloc, q, body, i, ty, st),
        Use::Typ(Known::Bad(_)) => Ok(stopped(st)),
        Use::Nothing => Ok(stuck(st)),
        Use::Number(_) => Ok(stuck(st)),
        Use::Slot(_) => Ok(stuck(st)),
        Use::Target(_) => Ok(stuck(st)),
        Use::Targets(_) => Ok(stuck(st)),
        Use::Method(_) => Ok(stuck(st)),
        Use::Field(_) => Ok(stuck(st)),
        Use::Text(_) => Ok(stuck(st)),
    }
}
