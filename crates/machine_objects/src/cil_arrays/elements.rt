//! The element instructions by their opcodes.

ghost use Rattle.std.specs.Prelude.{◌≡◌, [], IfOk};
ghost use Rattle.rules.specs.step_rules.Arrays.{load_access, load_element, store_access, store_or_length, plain_element, typed_element, element_form};
ghost use Rattle.machine_words.specs.cil_stores.Accesses.{access_in};
ghost use Rattle.machine_words.specs.cil_words.Steps.{next_of, here_by};

use crate::cil_arrays::accesses::{load_access, store_access};
use crate::cil_arrays::addresses::address_element;
use crate::cil_arrays::loads::{load_element, load_length};
use crate::cil_arrays::stores::store_element;
use il_base::cil_values::{Instruction, State, Use};
use il_base::world_model::{Known, TypeExpr};
use il_base::{NoMemory, opcode};
use machine_numbers::cil_operands::comes_to;
use machine_words::cil_closing::{args_of, closed_cell};
use machine_words::cil_queries::Answers;
use machine_words::cil_stores::{Access, element_access};
use machine_words::cil_words::{Body, StepOut, stopped, stuck};
use std::alloc::Global;

/// A load of an element.
fn loads<Q: Answers>(
    alloc: Global,
    q: &Q,
    body: &Body,
    i: &Instruction,
    access: &Access,
    st: &mut State,
) -> Result<StepOut, NoMemory>
    ensures { IfOk result (λ out. next_of out st.new [] ≡ load_element (Q.queries q.now) (here_by body.now st.old) i.now st.old (access_in access.now)) }
{
    let outcome = load_element(alloc, q, st, access)?;
    comes_to(alloc, q, body, i, 2, outcome, st)
}

/// A store without a type, or `ldlen`.
fn store_or_length<Q: Answers>(
    alloc: Global,
    q: &Q,
    body: &Body,
    i: &Instruction,
    st: &mut State,
) -> Result<StepOut, NoMemory>
    ensures { IfOk result (λ out. next_of out st.new [] ≡ store_or_length (Q.queries q.now) (here_by body.now st.old) i.now st.old (store_access i.now.opcode)) }
{
    if let Some(access) = store_access(i.opcode) {
        return store_element(alloc, q, body, i, &access, st);
    }
    if i.opcode == opcode::LDLEN {
        let outcome = load_length(st)?;
        comes_to(alloc, q, body, i, 1, outcome, st)
    } else {
        Ok(stuck(st))
    }
}

/// An element instruction without a type.
fn plain_element<Q: Answers>(
    alloc: Global,
    q: &Q,
    body: &Body,
    i: &Instruction,
    st: &mut State,
) -> Result<StepOut, NoMemory>
    ensures { IfOk result (λ out. next_of out st.new [] ≡ plain_element (Q.queries q.now) (here_by body.now st.old) i.now st.old (load_access i.now.opcode)) }
{
    if let Some(access) = load_access(i.opcode) {
        return loads(alloc, q, body, i, &access, st);
    }
    store_or_length(alloc, q, body, i, st)
}

/// `ldelem`, `stelem` and `ldelema` of a closed type.
fn typed_element<Q: Answers>(
    alloc: Global,
    q: &Q,
    body: &Body,
    i: &Instruction,
    ty: &TypeExpr,
    st: &mut State,
) -> Result<StepOut, NoMemory>
    ensures { IfOk result (λ out. next_of out st.new [] ≡ typed_element (Q.queries q.now) (here_by body.now st.old) i.now st.old ty.now) }
{
    if i.opcode == opcode::LDELEM {
        let access = element_access(alloc, q, ty)?;
        loads(alloc, q, body, i, &access, st)
    } else if i.opcode == opcode::STELEM {
        let access = element_access(alloc, q, ty)?;
        store_element(alloc, q, body, i, &access, st)
    } else if i.opcode == opcode::LDELEMA {
        let outcome = address_element(alloc, st, ty)?;
        comes_to(alloc, q, body, i, 2, outcome, st)
    } else {
        Ok(stuck(st))
    }
}

/// The element instructions (III.4.7 to III.4.9, III.4.12, III.4.26, III.4.27).
#[tactic(auto, unfolding(rules::specs::step_rules::Arrays::element_form, rules::specs::step_rules::Closing::closed_element))]
pub fn element_form<Q: Answers>(
    alloc: Global,
    q: &Q,
    body: &Body,
    i: &Instruction,
    st: &mut State,
) -> Result<StepOut, NoMemory>
    ensures { IfOk result (λ out. next_of out st.new [] ≡ element_form (Q.queries q.now) (here_by body.now st.old) i.now st.old) }
{
    match &i.operand {
        Use::Typ(Known::Good(ty)) => {
            let targs = args_of(&st.top.method.owner);
            match closed_cell(alloc, q, targs, st.top.method.args.as_slice(), ty)? {
                Some(ty) => typed_element(alloc, q, body, i, &ty, st),
                None => Ok(stopped(st)),
            }
        }
        Use::Typ(Known::Bad(_)) => Ok(stopped(st)),
        Use::Nothing => plain_element(alloc, q, body, i, st),
        Use::Number(_) => plain_element(alloc, q, body, i, st),
        Use::Slot(_) => plain_element(alloc, q, body, i, st),
        Use::Target(_) => plain_element(alloc, q, body, i, st),
        Use::Targets(_) => plain_element(alloc, q, body, i, st),
        Use::Method(_) => plain_element(alloc, q, body, i, st),
        Use::Field(_) => plain_element(alloc, q, body, i, st),
        Use::Text(_) => plain_element(alloc, q, body, i, st),
    }
}
