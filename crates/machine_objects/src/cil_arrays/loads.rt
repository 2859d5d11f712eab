//! Loads of elements (III.4.7, III.4.8), and lengths (III.4.12).

ghost use Rattle.std.specs.Prelude.{◌≡◌, drop, length, pos, IfOk};
ghost use Rattle.il_base.specs.declared.cil_values.value.Value.TheVariants as value;
ghost use Rattle.il_base.specs.declared.cil_values.resolved.Instruction.{Instruction};
ghost use Rattle.rules.specs.step_rules.Queries.{Queries};
ghost use Rattle.rules.specs.step_rules.Words.{Here};
ghost use Rattle.rules.specs.step_rules.Arrays.{load_length, load_element};
ghost use Rattle.machine_words.specs.cil_stores.Accesses.{access_in};
ghost use Rattle.machine_numbers.specs.cil_operands.Outcomes.{outcome_of};
ghost use Rattle.machine_objects.specs.cil_arrays.Elements.{loaded_at, load_found};
ghost use Rattle.machine_objects.specs.cil_arrays.Vectors.{vector_by};

use crate::cil_arrays::indices::index_in;
use crate::cil_arrays::vectors::{Elements, element_type, vector_of};
use il_base::NoMemory;
use il_base::cil_values::{State, Value};
use machine_numbers::cil_operands::{Refusal, next_operand, operand};
use machine_words::cil_queries::Answers;
use machine_words::cil_stores::{Access, allows, loaded};
use std::alloc::Global;

/// The length of an array. One beyond 9223372036854775807 is answered as want of memory.
fn length_of(v: &Elements) -> Result<Result<Value, Refusal>, NoMemory>
    ensures { IfOk result (λ out. out ≡ Ok (value.Native (pos (length v.now.cells.now)))) }
{
    match i64::try_from(v.cells.len()) {
        Ok(n) => Ok(Ok(Value::Native(n))),
        Err(_) => Err(NoMemory),
    }
}

/// What `ldlen` (III.4.12) gives.
pub(crate) fn load_length(st: &State) -> Result<Result<Value, Refusal>, NoMemory>
    ensures { IfOk result (λ out. (q : Queries) (here : Here) (i : Instruction) → outcome_of q here i st.now (drop 1 st.now.top.stack) out ≡ load_length q here i st.now) }
{
    let Some((r, _)) = operand(st) else {
        return Ok(Err(Refusal::Stuck));
    };
    match vector_of(st, r) {
        Ok(v) => length_of(&v),
        Err(why) => Ok(Err(why)),
    }
}

/// An element as an access loads it.
fn loaded_at(
    alloc: Global,
    access: &Access,
    v: &Elements,
    k: usize,
) -> Result<Result<Value, Refusal>, NoMemory>
    ensures { IfOk result (λ out. out ≡ loaded_at (access_in access.now) (vector_by v.now) k) }
{
    let Some(old) = v.cells.get(k) else {
        return Ok(Err(Refusal::Stuck));
    };
    let old = old.copy(alloc)?;
    match loaded(access, old) {
        Some(w) => Ok(Ok(w)),
        None => Ok(Err(Refusal::Stuck)),
    }
}

/// What a load from an array gives.
#[tactic(auto, unfolding(crate::specs::cil_arrays::Elements::load_found))]
fn load_found<Q: Answers>(
    alloc: Global,
    q: &Q,
    access: &Access,
    v: &Elements,
    index: &Value,
) -> Result<Result<Value, Refusal>, NoMemory>
    ensures { IfOk result (λ out. out ≡ load_found (Q.queries q.now) (access_in access.now) index.now (vector_by v.now)) }
{
    let ty = element_type(alloc, v)?;
    if !allows(alloc, q, access, &ty)? {
        return Ok(Err(Refusal::Stuck));
    }
    match index_in(v, index) {
        Ok(k) => loaded_at(alloc, access, v, k),
        Err(why) => Ok(Err(why)),
    }
}

/// What a load of an element gives, by what it takes.
pub(crate) fn load_element<Q: Answers>(
    alloc: Global,
    q: &Q,
    st: &State,
    access: &Access,
) -> Result<Result<Value, Refusal>, NoMemory>
    ensures { IfOk result (λ out. (here : Here) (i : Instruction) → outcome_of (Q.queries q.now) here i st.now (drop 2 st.now.top.stack) out ≡ load_element (Q.queries q.now) here i st.now (access_in access.now)) }
{
    let Some((index, below)) = operand(st) else {
        return Ok(Err(Refusal::Stuck));
    };
    let Some((r, _)) = next_operand(below) else {
        return Ok(Err(Refusal::Stuck));
    };
    match vector_of(st, r) {
        Ok(v) => load_found(alloc, q, access, &v, index),
        Err(why) => Ok(Err(why)),
    }
}
