//! Accesses to fields, by opcode.

ghost use Rattle.std.specs.Prelude.{◌≡◌, [], ◌∷◌, IfOk};
ghost use Rattle.rules.specs.step_rules.Closing.{closed_field};
ghost use Rattle.rules.specs.step_rules.Fields.{access, accesses, address_static, field_form, load_static};
ghost use Rattle.machine_words.specs.cil_words.Steps.{here_by, next_of};
ghost use Rattle.machine_words.specs.cil_closing.Callees.{accessed_by};
ghost use Rattle.machine_objects.specs.cil_fields.Placing.{address_popped, load_popped, store_popped, store_static_popped};

use crate::cil_fields::fields::{address_with, load_with, store_with};
use crate::cil_fields::flags::{is_static, may_access};
use crate::cil_fields::static_fields::{address_static, load_static, store_static};
use il_base::cil_values::{Instruction, State, Use};
use il_base::world_model::{FieldUse, Known};
use il_base::{NoMemory, opcode};
use machine_frames::cil_frames::started;
use machine_words::cil_closing::{Accessed, accessed_use};
use machine_words::cil_queries::Answers;
use machine_words::cil_words::{Body, StepOut, stopped, stuck};
use std::alloc::Global;

fn store_static_popped<Q: Answers>(
    alloc: Global,
    q: &Q,
    body: &Body,
    i: &Instruction,
    a: &Accessed,
    st: &mut State,
) -> Result<StepOut, NoMemory>
    ensures { IfOk result (λ out. next_of out st.new [] ≡ store_static_popped (Q.queries q.now) (here_by body.now st.old) i.now (accessed_by a.now) st.old) }
{
    let Some(v) = st.top.stack.pop() else {
        return Ok(stuck(st));
    };
    let out = store_static(alloc, q, body, i, a, v, st)?;
    Ok(out)
}

fn load_popped<Q: Answers>(
    alloc: Global,
    q: &Q,
    body: &Body,
    i: &Instruction,
    a: &Accessed,
    st: &mut State,
) -> Result<StepOut, NoMemory>
    ensures { IfOk result (λ out. next_of out st.new [] ≡ load_popped (Q.queries q.now) (here_by body.now st.old) i.now (accessed_by a.now) st.old) }
{
    let Some(r) = st.top.stack.pop() else {
        return Ok(stuck(st));
    };
    let out = load_with(alloc, q, body, i, a, r, st)?;
    Ok(out)
}

fn address_popped<Q: Answers>(
    alloc: Global,
    q: &Q,
    body: &Body,
    i: &Instruction,
    a: &Accessed,
    st: &mut State,
) -> Result<StepOut, NoMemory>
    ensures { IfOk result (λ out. next_of out st.new [] ≡ address_popped (Q.queries q.now) (here_by body.now st.old) i.now (accessed_by a.now) st.old) }
{
    let Some(r) = st.top.stack.pop() else {
        return Ok(stuck(st));
    };
    let out = address_with(alloc, q, body, i, a, r, st)?;
    Ok(out)
}

fn store_popped<Q: Answers>(
    alloc: Global,
    q: &Q,
    body: &Body,
    i: &Instruction,
    a: &Accessed,
    st: &mut State,
) -> Result<StepOut, NoMemory>
    ensures { IfOk result (λ out. next_of out st.new [] ≡ store_popped (Q.queries q.now) (here_by body.now st.old) i.now (accessed_by a.now) st.old) }
{
    let Some(v) = st.top.stack.pop() else {
        return Ok(stuck(st));
    };
    let Some(r) = st.top.stack.pop() else {
        return Ok(stuck(st));
    };
    let out = store_with(alloc, q, body, i, a, r, v, st)?;
    Ok(out)
}

fn load_whole<Q: Answers>(
    alloc: Global,
    q: &Q,
    body: &Body,
    i: &Instruction,
    a: &Accessed,
    st: &mut State,
) -> Result<StepOut, NoMemory>
    ensures { IfOk result (λ out. next_of out st.new [] ≡ load_static (Q.queries q.now) (here_by body.now st.old) i.now (accessed_by a.now) st.old.top.stack st.old) }
{
    let out = load_static(alloc, q, body, i, a, st)?;
    Ok(out)
}

fn address_whole<Q: Answers>(
    alloc: Global,
    q: &Q,
    body: &Body,
    i: &Instruction,
    a: &Accessed,
    st: &mut State,
) -> Result<StepOut, NoMemory>
    ensures { IfOk result (λ out. next_of out st.new [] ≡ address_static (Q.queries q.now) (here_by body.now st.old) i.now (accessed_by a.now) st.old.top.stack st.old) }
{
    let out = address_static(alloc, q, body, i, a, st)?;
    Ok(out)
}

/// An access by its opcode.
fn access<Q: Answers>(
    alloc: Global,
    q: &Q,
    body: &Body,
    i: &Instruction,
    a: &Accessed,
    st: &mut State,
) -> Result<StepOut, NoMemory>
    ensures { IfOk result (λ out. next_of out st.new [] ≡ access (Q.queries q.now) (here_by body.now st.old) i.now (accessed_by a.now) st.old) }
{
    match i.opcode {
        opcode::LDSFLD => load_whole(alloc, q, body, i, a, st),
        opcode::LDSFLDA => address_whole(alloc, q, body, i, a, st),
        opcode::STSFLD => store_static_popped(alloc, q, body, i, a, st),
        opcode::LDFLD => load_popped(alloc, q, body, i, a, st),
        opcode::LDFLDA => address_popped(alloc, q, body, i, a, st),
        opcode::STFLD => store_popped(alloc, q, body, i, a, st),
        _ => Ok(stuck(st)),
    }
}

/// An access to a field. One to a static field begins its type (II.10.5.3).
fn accesses<Q: Answers>(
    alloc: Global,
    q: &Q,
    body: &Body,
    i: &Instruction,
    a: &Accessed,
    st: &mut State,
) -> Result<StepOut, NoMemory>
    ensures { IfOk result (λ out. next_of out st.new [] ≡ accesses (Q.queries q.now) (here_by body.now st.old) i.now st.old (accessed_by a.now)) }
{
    if !may_access(i, a) {
        return Ok(stuck(st));
    }
    if !is_static(a) {
        return access(alloc, q, body, i, a, st);
    }
    match started(alloc, q, true, &a.owner, st)? {
        Some(out) => Ok(out),
        None => access(alloc, q, body, i, a, st),
    }
}

/// An access to a field of an operand. A field that has no meaning stops the run.
#[tactic(auto, unfolding(rules::specs::step_rules::Closing::closed_field))]
fn closed_access<Q: Answers>(
    alloc: Global,
    q: &Q,
    body: &Body,
    i: &Instruction,
    used: &Known<FieldUse>,
    st: &mut State,
) -> Result<StepOut, NoMemory>
    ensures { IfOk result (λ out. next_of out st.new [] ≡ closed_field (Q.queries q.now) (here_by body.now st.old) used.now st.old (accesses (Q.queries q.now) (here_by body.now st.old) i.now st.old)) }
{
    let Known::Good(open) = used else {
        return Ok(stopped(st));
    };
    let Some(a) = accessed_use(alloc, q, body, st, open)? else {
        return Ok(stopped(st));
    };
    accesses(alloc, q, body, i, &a, st)
}

/// `ldfld`, `ldflda`, `stfld`, `ldsfld`, `ldsflda`, `stsfld` (III.4.10, III.4.11, III.4.14, III.4.15, III.4.28, III.4.30).
#[tactic(auto, unfolding(rules::specs::step_rules::Fields::field_form))]
pub fn field_form<Q: Answers>(
    alloc: Global,
    q: &Q,
    body: &Body,
    i: &Instruction,
    st: &mut State,
) -> Result<StepOut, NoMemory>
    ensures { IfOk result (λ out. next_of out st.new [] ≡ field_form (Q.queries q.now) (here_by body.now st.old) i.now st.old) }
{
    match &i.operand {
        Use::Field(used) => closed_access(alloc, q, body, i, used, st),
        Use::Nothing => Ok(stuck(st)),
        Use::Number(_) => Ok(stuck(st)),
        Use::Slot(_) => Ok(stuck(st)),
        Use::Target(_) => Ok(stuck(st)),
        Use::Targets(_) => Ok(stuck(st)),
        Use::Typ(_) => Ok(stuck(st)),
        Use::Method(_) => Ok(stuck(st)),
        Use::Text(_) => Ok(stuck(st)),
    }
}
