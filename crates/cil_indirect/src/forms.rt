//! Loads and stores through pointers, by opcode.

ghost use Rattle.std.specs.Prelude.{◌≡◌, [], IfOk};
ghost use Rattle.rules.specs.step_rules.Closing.{closed};
ghost use Rattle.rules.specs.step_rules.Indirect.{indirect, load_access, plain_access, typed_access};
ghost use Rattle.machine_words.specs.cil_words.Steps.{here_by, next_of};

use crate::accesses::{load_access, store_access};
use crate::copying::copy_by;
use crate::loading::load_by;
use crate::storing::{init_by, store_by};
use il_base::cil_values::{Instruction, State, Use};
use il_base::world_model::{Known, TypeExpr};
use il_base::{NoMemory, opcode};
use machine_numbers::cil_pointers::discard;
use machine_words::cil_closing::{args_of, closed_slot};
use machine_words::cil_queries::Answers;
use machine_words::cil_stores::access_of;
use machine_words::cil_words::{Body, StepOut, stopped, stuck};
use std::alloc::Global;

/// `ldind` and `stind` (III.3.42, III.3.62).
fn plain_access<Q: Answers>(
    alloc: Global,
    q: &Q,
    body: &Body,
    i: &Instruction,
    st: &mut State,
) -> Result<StepOut, NoMemory>
    ensures { IfOk result (λ out. next_of out st.new [] ≡ plain_access (Q.queries q.now) (here_by body.now st.old) i.now st.old (load_access i.now.opcode)) }
{
    if let Some(a) = load_access(i.opcode) {
        return load_by(alloc, q, body, i, &a, st);
    }
    match store_access(i.opcode) {
        None => Ok(stuck(st)),
        Some(a) => store_by(alloc, q, body, i, &a, st),
    }
}

/// `ldobj`, `stobj`, `cpobj`, `initobj` (III.4.13, III.4.29, III.4.4, III.4.5), with their closed type.
fn typed_access<Q: Answers>(
    alloc: Global,
    q: &Q,
    body: &Body,
    i: &Instruction,
    ty: &TypeExpr,
    st: &mut State,
) -> Result<StepOut, NoMemory>
    ensures { IfOk result (λ out. next_of out st.new [] ≡ typed_access (Q.queries q.now) (here_by body.now st.old) i.now st.old ty.now) }
{
    match i.opcode {
        opcode::LDOBJ => {
            let a = access_of(alloc, q, ty)?;
            load_by(alloc, q, body, i, &a, st)
        }
        opcode::STOBJ => {
            let a = access_of(alloc, q, ty)?;
            store_by(alloc, q, body, i, &a, st)
        }
        opcode::CPOBJ => {
            let a = access_of(alloc, q, ty)?;
            copy_by(alloc, q, body, i, &a, st)
        }
        opcode::INITOBJ => init_by(alloc, q, body, i, ty, st),
        _ => Ok(stuck(st)),
    }
}

/// An instruction with a type, which is closed first. A type that has no meaning stops the run.
#[tactic(auto, unfolding(rules::specs::step_rules::Closing::closed))]
fn closed_access<Q: Answers>(
    alloc: Global,
    q: &Q,
    body: &Body,
    i: &Instruction,
    ty: &Known<TypeExpr>,
    st: &mut State,
) -> Result<StepOut, NoMemory>
    ensures { IfOk result (λ out. next_of out st.new [] ≡ closed (Q.queries q.now) (here_by body.now st.old) ty.now st.old (typed_access (Q.queries q.now) (here_by body.now st.old) i.now st.old)) }
{
    let Known::Good(open) = ty else {
        return Ok(stopped(st));
    };
    let targs = args_of(&st.top.method.owner);
    let found = closed_slot(alloc, q, targs, st.top.method.args.as_slice(), open)?;
    let Some(closed) = found else {
        return Ok(stopped(st));
    };
    let out = typed_access(alloc, q, body, i, &closed, st)?;
    discard(closed);
    Ok(out)
}

/// Loads and stores through pointers (III.3.42, III.3.62, III.4.4, III.4.5, III.4.13, III.4.29).
#[tactic(auto, unfolding(rules::specs::step_rules::Indirect::indirect))]
pub fn indirect<Q: Answers>(
    alloc: Global,
    q: &Q,
    body: &Body,
    i: &Instruction,
    st: &mut State,
) -> Result<StepOut, NoMemory>
    ensures { IfOk result (λ out. next_of out st.new [] ≡ indirect (Q.queries q.now) (here_by body.now st.old) i.now st.old) }
{
    match &i.operand {
        Use::Typ(ty) => closed_access(alloc, q, body, i, ty, st),
        Use::Nothing => plain_access(alloc, q, body, i, st),
        Use::Number(_) => plain_access(alloc, q, body, i, st),
        Use::Slot(_) => plain_access(alloc, q, body, i, st),
        Use::Target(_) => plain_access(alloc, q, body, i, st),
        Use::Targets(_) => plain_access(alloc, q, body, i, st),
        Use::Method(_) => plain_access(alloc, q, body, i, st),
        Use::Field(_) => plain_access(alloc, q, body, i, st),
        Use::Text(_) => plain_access(alloc, q, body, i, st),
    }
}
