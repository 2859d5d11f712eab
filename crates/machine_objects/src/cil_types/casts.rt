//! `castclass` (III.4.3) and `isinst` (III.4.6).

ghost use Rattle.std.specs.Prelude.{◌≡◌, [], List, drop, IfOk};
ghost use Rattle.il_base.specs.declared.cil_values.value.Value.{Value};
ghost use Rattle.il_base.specs.declared.cil_values.resolved.Instruction.{Instruction};
ghost use Rattle.rules.specs.step_rules.Next.{Next};
ghost use Rattle.rules.specs.step_rules.Words.{Here, popped};
ghost use Rattle.rules.specs.step_rules.Types.{cast_with, cast_class, casts, cast};
ghost use Rattle.machine_words.specs.cil_words.Steps.{next_of, here_by};
ghost use Rattle.machine_objects.specs.cil_types.Casts.{cast_by, refusal_by};

use il_base::cil_values::{Instruction, State, Use, Value};
use il_base::core_table::CoreName;
use il_base::world_model::{Known, TypeExpr};
use il_base::{NoMemory, opcode};
use machine_frames::cil_raising::raise;
use machine_numbers::cil_operands::{gives, operand};
use machine_words::cil_closing::{args_of, closed_slot};
use machine_words::cil_objects::is_a;
use machine_words::cil_queries::Answers;
use machine_words::cil_words::{Body, StepOut, goes, stopped, stuck};
use std::alloc::Global;

/// What a cast makes of a value.
#[derive(Clone, Copy, Debug, PartialEq, Eq)]
enum CastOutcome {
    /// Null, or an object of the type: it stays as it is.
    Keeps,
    /// Another object.
    Refuses,
    /// The value is no reference to an object.
    Stuck,
}

/// What a cast to a closed type makes of a value.
#[tactic(auto, unfolding(crate::specs::cil_types::Casts::cast_by))]
fn cast_of<Q: Answers>(
    alloc: Global,
    q: &Q,
    st: &State,
    ty: &TypeExpr,
    v: &Value,
) -> Result<CastOutcome, NoMemory>
    ensures { IfOk result (λ c. (here : Here) (i : Instruction) (stack : List Value) (other : Next) → cast_with (Q.queries q.now) here i st.now ty.now v.now stack other ≡ cast_by c here i st.now v.now stack other) }
{
    match v {
        Value::Null => Ok(CastOutcome::Keeps),
        Value::Object(a) => {
            if is_a(alloc, q, st, ty, *a)? {
                Ok(CastOutcome::Keeps)
            } else {
                Ok(CastOutcome::Refuses)
            }
        }
        Value::I4(_) => Ok(CastOutcome::Stuck),
        Value::I8(_) => Ok(CastOutcome::Stuck),
        Value::Native(_) => Ok(CastOutcome::Stuck),
        Value::Pointer(_) => Ok(CastOutcome::Stuck),
        Value::Struct(_, _) => Ok(CastOutcome::Stuck),
        Value::Handle(_) => Ok(CastOutcome::Stuck),
        Value::FieldHandle(_) => Ok(CastOutcome::Stuck),
    }
}

/// Null stays null, an object of the type stays as it is, and another raises InvalidCastException.
pub(crate) fn cast_class<Q: Answers>(
    alloc: Global,
    q: &Q,
    body: &Body,
    i: &Instruction,
    ty: &TypeExpr,
    st: &mut State,
) -> Result<StepOut, NoMemory>
    ensures { IfOk result (λ out. next_of out st.new [] ≡ popped st.old.top.stack st.old (cast_class (Q.queries q.now) (here_by body.now st.old) i.now st.old ty.now)) }
{
    let Some((v, _)) = operand(st) else {
        return Ok(stuck(st));
    };
    match cast_of(alloc, q, st, ty, v)? {
        CastOutcome::Keeps => Ok(goes(body, i, st)),
        CastOutcome::Refuses => raise(alloc, q, CoreName::InvalidCastException, st),
        CastOutcome::Stuck => Ok(stuck(st)),
    }
}

/// An object of another type: `castclass` raises InvalidCastException, and `isinst` leaves null.
fn refuse<Q: Answers>(
    alloc: Global,
    q: &Q,
    body: &Body,
    i: &Instruction,
    st: &mut State,
) -> Result<StepOut, NoMemory>
    ensures { IfOk result (λ out. next_of out st.new [] ≡ refusal_by (Q.queries q.now) (here_by body.now st.old) i.now st.old (drop 1 st.old.top.stack)) }
{
    if i.opcode == opcode::CASTCLASS {
        raise(alloc, q, CoreName::InvalidCastException, st)
    } else {
        gives(body, i, 1, Value::Null, st)
    }
}

fn casts<Q: Answers>(
    alloc: Global,
    q: &Q,
    body: &Body,
    i: &Instruction,
    ty: &TypeExpr,
    st: &mut State,
) -> Result<StepOut, NoMemory>
    ensures { IfOk result (λ out. next_of out st.new [] ≡ casts (Q.queries q.now) (here_by body.now st.old) i.now st.old ty.now) }
{
    let Some((v, _)) = operand(st) else {
        return Ok(stuck(st));
    };
    match cast_of(alloc, q, st, ty, v)? {
        CastOutcome::Keeps => Ok(goes(body, i, st)),
        CastOutcome::Refuses => refuse(alloc, q, body, i, st),
        CastOutcome::Stuck => Ok(stuck(st)),
    }
}

/// `castclass` (III.4.3) and `isinst` (III.4.6).
#[tactic(auto, unfolding(rules::specs::step_rules::Types::cast, rules::specs::step_rules::Closing::closed))]
pub fn cast<Q: Answers>(
    alloc: Global,
    q: &Q,
    body: &Body,
    i: &Instruction,
    st: &mut State,
) -> Result<StepOut, NoMemory>
    ensures { IfOk result (λ out. next_of out st.new [] ≡ cast (Q.queries q.now) (here_by body.now st.old) i.now st.old) }
{
    match &i.operand {
        Use::Typ(Known::Good(ty)) => {
            let targs = args_of(&st.top.method.owner);
            match closed_slot(alloc, q, targs, st.top.method.args.as_slice(), ty)? {
                Some(ty) => casts(alloc, q, body, i, &ty, st),
                None => Ok(stopped(st)),
            }
        }
        Use::Typ(Known::Bad(_)) => Ok(stopped(st)),
        Use::Nothing => Ok(stuck(st)),
        Use::Number(_) => Ok(stuck(st)),
        Use::Slot(_) => Ok(stuck(st)),
        Use::Target(_) => Ok(stuck(st)),
        Use::Targets(_) => Ok(stuck(st)),
        Use::Method(_) => Ok(stuck(st)),
        Use::Field(_) => Ok(stuck(st)),
        Use::Text(_) => Ok(stuck(st)),
    }
}
