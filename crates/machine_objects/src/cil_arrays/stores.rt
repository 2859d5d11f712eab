//! Stores to elements (III.4.26, III.4.27).

ghost use Rattle.std.specs.Prelude.{◌≡◌, [], drop, slice_set, IfOk};
ghost use Rattle.il_base.specs.declared.cil_values.resolved.Instruction.{Instruction};
ghost use Rattle.rules.specs.step_rules.Words.{Here};
ghost use Rattle.rules.specs.step_rules.Arrays.{mismatches, store_element};
ghost use Rattle.machine_words.specs.cil_words.Steps.{next_of, here_by};
ghost use Rattle.machine_words.specs.cil_stores.Accesses.{access_in};
ghost use Rattle.machine_objects.specs.cil_arrays.Elements.{checked_at, stored_at, store_found, put_at, stored_by};
ghost use Rattle.machine_objects.specs.cil_arrays.Vectors.{vector_by};

use crate::cil_arrays::indices::index_in;
use crate::cil_arrays::vectors::{Elements, element_type, vector_of};
use il_base::cil_values::{Instruction, Obj, State, Value};
use il_base::core_table::CoreName;
use il_base::{NoMemory, Seq};
use machine_numbers::cil_operands::{Refusal, consumes, next_operand, operand, refuse};
use machine_words::cil_objects::is_a;
use machine_words::cil_queries::Answers;
use machine_words::cil_stores::{Access, allows, stored};
use machine_words::cil_words::{Body, StepOut, stuck};
use std::alloc::Global;

/// A value that is put into an element of an array.
#[derive(Drop)]
pub(crate) struct Stored {
    /// The array, by its place in the heap.
    array: u32,
    /// The element, from 0.
    at: usize,
    value: Value,
}

/// Whether a value is an object that isn't of the type of the elements (III.4.27).
fn mismatches<Q: Answers>(
    alloc: Global,
    q: &Q,
    st: &State,
    v: &Elements,
    w: &Value,
) -> Result<bool, NoMemory>
    ensures { IfOk result (λ yes. yes ≡ mismatches (Q.queries q.now) st.now (vector_by v.now) w.now) }
{
    match w {
        Value::Object(at) => {
            let ty = element_type(alloc, v)?;
            let fits = is_a(alloc, q, st, &ty, *at)?;
            Ok(!fits)
        }
        Value::Null => Ok(false),
        Value::I4(_) => Ok(false),
        Value::I8(_) => Ok(false),
        Value::Native(_) => Ok(false),
        Value::Pointer(_) => Ok(false),
        Value::Struct(_, _) => Ok(false),
        Value::Handle(_) => Ok(false),
        Value::FieldHandle(_) => Ok(false),
    }
}

/// A value that is put into an element, but an object that isn't of the type of the elements.
fn checked_at<Q: Answers>(
    alloc: Global,
    q: &Q,
    st: &State,
    v: &Elements,
    k: usize,
    w: Value,
) -> Result<Result<Stored, Refusal>, NoMemory>
    ensures { IfOk result (λ out. out ≡ checked_at (Q.queries q.now) st.now (vector_by v.now) k w) }
{
    if mismatches(alloc, q, st, v, &w)? {
        drop(w);
        return Ok(Err(Refusal::Raises(CoreName::ArrayTypeMismatchException)));
    }
    Ok(Ok(Stored {
        array: v.place,
        at: k,
        value: w,
    }))
}

/// What an access stores into an element that is there.
fn stored_at<Q: Answers>(
    alloc: Global,
    q: &Q,
    st: &State,
    access: &Access,
    x: &Value,
    v: &Elements,
    k: usize,
) -> Result<Result<Stored, Refusal>, NoMemory>
    ensures { IfOk result (λ out. out ≡ stored_at (Q.queries q.now) st.now (access_in access.now) x.now (vector_by v.now) k) }
{
    let ty = element_type(alloc, v)?;
    let x = x.copy(alloc)?;
    match stored(alloc, q, access, &ty, x)? {
        Some(w) => checked_at(alloc, q, st, v, k, w),
        None => Ok(Err(Refusal::Stuck)),
    }
}

/// What an access stores into an array.
#[tactic(auto, unfolding(crate::specs::cil_arrays::Elements::store_found))]
fn store_found<Q: Answers>(
    alloc: Global,
    q: &Q,
    st: &State,
    access: &Access,
    index: &Value,
    x: &Value,
    v: &Elements,
) -> Result<Result<Stored, Refusal>, NoMemory>
    ensures { IfOk result (λ out. out ≡ store_found (Q.queries q.now) st.now (access_in access.now) index.now x.now (vector_by v.now)) }
{
    let ty = element_type(alloc, v)?;
    if !allows(alloc, q, access, &ty)? {
        return Ok(Err(Refusal::Stuck));
    }
    match index_in(v, index) {
        Ok(k) => stored_at(alloc, q, st, access, x, v, k),
        Err(why) => Ok(Err(why)),
    }
}

/// What an element instruction stores, by its three operands.
fn store_operands<Q: Answers>(
    alloc: Global,
    q: &Q,
    st: &State,
    access: &Access,
) -> Result<Result<Stored, Refusal>, NoMemory>
    ensures { IfOk result (λ out. (here : Here) (i : Instruction) → stored_by (Q.queries q.now) here i st.now (drop 3 st.now.top.stack) out ≡ store_element (Q.queries q.now) here i st.now (access_in access.now)) }
{
    let Some((x, rest)) = operand(st) else {
        return Ok(Err(Refusal::Stuck));
    };
    let Some((index, below)) = next_operand(rest) else {
        return Ok(Err(Refusal::Stuck));
    };
    let Some((r, _)) = next_operand(below) else {
        return Ok(Err(Refusal::Stuck));
    };
    match vector_of(st, r) {
        Ok(v) => store_found(alloc, q, st, access, index, x, &v),
        Err(why) => Ok(Err(why)),
    }
}

/// Puts a value into a slot, if there is such a slot.
fn set(cells: &mut Seq<Value>, at: usize, v: Value)
    ensures { cells.new ≡ slice_set cells.old at v }
{
    if at < cells.len() {
        cells.set(at, v);
    } else {
        drop(v);
    }
}

/// Puts a value into an element, and goes on without the three operands.
#[tactic(auto, using(crate::proofs::lemmas::cil_arrays::Sets::set_twice), unfolding(rules::specs::step_rules::Words::goes_with))]
fn put_at(
    alloc: Global,
    body: &Body,
    i: &Instruction,
    put: Stored,
    st: &mut State,
) -> Result<StepOut, NoMemory>
    ensures { IfOk result (λ out. next_of out st.new [] ≡ put_at (here_by body.now st.old) i.now st.old (drop 3 st.old.top.stack) put.array put.at put.value) }
{
    let Stored { array, at, value } = put;
    if st.heap.get(array).is_none() {
        drop(value);
        return Ok(stuck(st));
    }
    match st.heap.replace(array, Obj::Str(Seq::new(alloc))) {
        Obj::Array { of, mut cells } => {
            set(&mut cells, at, value);
            st.heap.set(array, Obj::Array { of, cells });
            Ok(consumes(body, i, 3, st))
        }
        other => {
            drop(other);
            drop(value);
            Ok(stuck(st))
        }
    }
}

/// Puts what an instruction stores into its element.
#[tactic(auto, unfolding(crate::specs::cil_arrays::Elements::stored_by))]
fn puts<Q: Answers>(
    alloc: Global,
    q: &Q,
    body: &Body,
    i: &Instruction,
    put: Result<Stored, Refusal>,
    st: &mut State,
) -> Result<StepOut, NoMemory>
    ensures { IfOk result (λ out. next_of out st.new [] ≡ stored_by (Q.queries q.now) (here_by body.now st.old) i.now st.old (drop 3 st.old.top.stack) put) }
{
    match put {
        Ok(put) => put_at(alloc, body, i, put, st),
        Err(why) => refuse(alloc, q, why, st),
    }
}

/// A store to an element, by what it takes.
pub(crate) fn store_element<Q: Answers>(
    alloc: Global,
    q: &Q,
    body: &Body,
    i: &Instruction,
    access: &Access,
    st: &mut State,
) -> Result<StepOut, NoMemory>
    ensures { IfOk result (λ out. next_of out st.new [] ≡ store_element (Q.queries q.now) (here_by body.now st.old) i.now st.old (access_in access.now)) }
{
    let put = store_operands(alloc, q, st, access)?;
    puts(alloc, q, body, i, put, st)
}
