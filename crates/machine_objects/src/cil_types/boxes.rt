//! `box` (III.4.1).

ghost use Rattle.std.specs.Prelude.{◌≡◌, [], IfOk};
ghost use Rattle.rules.specs.step_rules.Words.{popped};
ghost use Rattle.rules.specs.step_rules.Types.{boxes, box};
ghost use Rattle.machine_words.specs.cil_words.Steps.{next_of, here_by};
ghost use Rattle.machine_objects.specs.cil_types.Boxing.{box_form};

use il_base::NoMemory;
use il_base::cil_values::{Instruction, Obj, State, Use, Value};
use il_base::world_model::{Known, TypeExpr};
use machine_numbers::cil_operands::gives;
use machine_words::cil_closing::{args_of, closed_slot};
use machine_words::cil_queries::Answers;
use machine_words::cil_stores::{fits, fits_reference, is_reference, is_value};
use machine_words::cil_words::{Body, StepOut, stopped, stuck};
use std::alloc::Global;

/// Puts the value on the stack into a box. A reference stays as it is.
#[tactic(auto, unfolding(rules::specs::step_rules::Words::goes_with))]
fn boxes<Q: Answers>(
    alloc: Global,
    q: &Q,
    body: &Body,
    i: &Instruction,
    ty: TypeExpr,
    st: &mut State,
) -> Result<StepOut, NoMemory>
    ensures { IfOk result (λ out. next_of out st.new [] ≡ popped st.old.top.stack st.old (boxes (Q.queries q.now) (here_by body.now st.old) i.now st.old ty)) }
{
    let Some(v) = st.top.stack.pop() else {
        return Ok(stuck(st));
    };
    if is_reference(alloc, q, &ty)? {
        return match fits_reference(v) {
            Some(w) => gives(body, i, 0, w, st),
            None => Ok(stuck(st)),
        };
    }
    if !is_value(alloc, q, &ty)? {
        return Ok(stuck(st));
    }
    let Some(value) = fits(alloc, q, &ty, v)? else {
        return Ok(stuck(st));
    };
    let a = st.heap.add(Obj::Boxed { of: ty, value })?;
    gives(body, i, 0, Value::Object(a), st)
}

/// `box`, by its operand.
#[tactic(auto, unfolding(rules::specs::step_rules::Closing::closed))]
fn box_form<Q: Answers>(
    alloc: Global,
    q: &Q,
    body: &Body,
    i: &Instruction,
    st: &mut State,
) -> Result<StepOut, NoMemory>
    ensures { IfOk result (λ out. next_of out st.new [] ≡ box_form (Q.queries q.now) (here_by body.now st.old) i.now st.old) }
{
    match &i.operand {
        Use::Typ(Known::Good(ty)) => {
            let targs = args_of(&st.top.method.owner);
            match closed_slot(alloc, q, targs, st.top.method.args.as_slice(), ty)? {
                Some(ty) => boxes(alloc, q, body, i, ty, st),
                None => Ok(stopped(st)),
            }
        }
        Use::Typ(Known::Bad(_)) => Ok(stopped(st)),
        Use::Nothing => Ok(stuck(st)),
        Use::Number(_) => Ok(stuck(st)),
        Use::Slot(_) => Ok(stuck(st)),
        Use::Target(_) => Ok(stuck(st)),
        Use::Targets(_) => Ok(stuck(st)),
        Use::Method(_) => Ok(stuck(st)),
        Use::Field(_) => Ok(stuck(st)),
        Use::Text(_) => Ok(stuck(st)),
    }
}

/// `box` (III.4.1).
pub fn box_value<Q: Answers>(
    alloc: Global,
    q: &Q,
    body: &Body,
    i: &Instruction,
    st: &mut State,
) -> Result<StepOut, NoMemory>
    ensures { IfOk result (λ out. next_of out st.new [] ≡ box (Q.queries q.now) (here_by body.now st.old) i.now st.old) }
{
    let out = box_form(alloc, q, body, i, st)?;
    Ok(out)
}
