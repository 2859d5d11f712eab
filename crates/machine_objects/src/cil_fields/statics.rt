//! Static fields begin (II.16.3.2).

ghost use Rattle.std.specs.Prelude.{◌≡◌, List, [], Some, IfOk, OnOk};
ghost use Rattle.il_base.specs.declared.cil_values.value.Value.{Value};
ghost use Rattle.il_base.specs.declared.cil_values.state.State.{State};
ghost use Rattle.rules.specs.step_rules.Next.{Next};
ghost use Rattle.rules.specs.step_rules.Words.{had};
ghost use Rattle.rules.specs.step_rules.Objects.{interned};
ghost use Rattle.rules.specs.step_rules.Places.{global_of};
ghost use Rattle.rules.specs.step_rules.Stores.{zero_of};
ghost use Rattle.rules.specs.step_rules.Fields.{begins_with, begun_static, first_value, static_type, value_of_bytes, with_value};
ghost use Rattle.machine_words.specs.cil_closing.Callees.{accessed_by};
ghost use Rattle.il_base.specs.declared.cil_values.value.Value.TheVariants as value;
ghost use Rattle.il_base.specs.declared.cil_values.definition.First.TheVariants as first;
ghost use Rattle.machine_objects.specs.cil_fields.Placing.{Begins, IsReady};

use crate::cil_fields::bytes::value_of_bytes;
use il_base::cil_values::{First, Global as StaticField, State, Value};
use il_base::world_model::{Known, TypeExpr};
use il_base::{NoMemory, Seq, Text};
use machine_numbers::cil_pointers::discard;
use machine_words::cil_closing::{Accessed, args_of, closed_cell};
use machine_words::cil_objects::interned;
use machine_words::cil_places::global_of;
use machine_words::cil_queries::Answers;
use machine_words::cil_stores::zero_of;
use machine_words::cil_words::{StepOut, stopped};
use std::alloc::Global;

/// A static field that is accessed.
#[derive(Drop)]
pub enum Ready {
    /// It has a value; this is its closed type.
    Is(TypeExpr),
    /// The step is over.
    Over(StepOut),
}

/// The closed type of a static field. None where it has no meaning.
#[tactic(auto, unfolding(rules::specs::step_rules::Fields::static_type))]
pub fn static_type<Q: Answers>(
    alloc: Global,
    q: &Q,
    a: &Accessed,
) -> Result<Option<TypeExpr>, NoMemory>
    ensures { IfOk result (λ ty. ty ≡ static_type (Q.queries q.now) (accessed_by a.now)) }
{
    match &a.field.typ {
        Known::Bad(_) => Ok(None),
        Known::Good(ty) => closed_cell(alloc, q, args_of(&a.owner), &[], ty),
    }
}

/// A static field has a value from now on.
fn with_value(alloc: Global, a: &Accessed, v: Value, st: &mut State) -> Result<(), NoMemory>
    ensures { OnOk result (st.new ≡ with_value (accessed_by a.now) v st.old) }
{
    let owner = a.owner.copy(alloc)?;
    st.statics.push(StaticField {
        field: a.id,
        owner,
        value: v,
    })?;
    Ok(())
}

/// A static field begins with a value. None stops the run.
fn begins_with(
    alloc: Global,
    a: &Accessed,
    v: Option<Value>,
    st: &mut State,
) -> Result<Option<StepOut>, NoMemory>
    ensures { IfOk result (λ over. Begins (λ (s : State) (f : State → Next). had v s (begins_with (accessed_by a.now) s f)) st.old st.new over) }
{
    match v {
        None => Ok(Some(stopped(st))),
        Some(v) => {
            with_value(alloc, a, v, st)?;
            Ok(None)
        }
    }
}

/// A static field begins with the object of the empty text.
fn begins_empty(alloc: Global, a: &Accessed, st: &mut State) -> Result<Option<StepOut>, NoMemory>
    ensures { IfOk result (λ over. Begins (λ (s : State) (f : State → Next). interned [] s (λ o t. f (with_value (accessed_by a.now) (value.Object o) t))) st.old st.new over) }
{
    let end = stopped(st);
    let made = interned(alloc, st, &Seq::new(alloc))?;
    match made {
        None => Ok(Some(end)),
        Some(o) => {
            discard(end);
            with_value(alloc, a, Value::Object(o), st)?;
            Ok(None)
        }
    }
}

/// A static field begins with the zero of its type.
fn begins_zero<Q: Answers>(
    alloc: Global,
    q: &Q,
    a: &Accessed,
    ty: &TypeExpr,
    st: &mut State,
) -> Result<Option<StepOut>, NoMemory>
    ensures { IfOk result (λ over. Begins (λ (s : State) (f : State → Next). had (zero_of (Q.queries q.now) ty.now) s (begins_with (accessed_by a.now) s f)) st.old st.new over) }
{
    let v = zero_of(alloc, q, ty)?;
    let over = begins_with(alloc, a, v, st)?;
    Ok(over)
}

/// A static field begins with what the bytes are.
fn begins_bytes<Q: Answers>(
    alloc: Global,
    q: &Q,
    a: &Accessed,
    ty: &TypeExpr,
    bytes: &[u8],
    st: &mut State,
) -> Result<Option<StepOut>, NoMemory>
    ensures { IfOk result (λ over. Begins (λ (s : State) (f : State → Next). had (value_of_bytes (Q.queries q.now) ty.now bytes.now ((Q.queries q.now).shape ty.now)) s (begins_with (accessed_by a.now) s f)) st.old st.new over) }
{
    let v = value_of_bytes(alloc, q, ty, bytes)?;
    let over = begins_with(alloc, a, v, st)?;
    Ok(over)
}

/// A static field begins with the bytes at its RVA. Bytes that aren't there stop the run.
fn begins_told<Q: Answers>(
    alloc: Global,
    q: &Q,
    a: &Accessed,
    ty: &TypeExpr,
    bytes: &Known<Text>,
    st: &mut State,
) -> Result<Option<StepOut>, NoMemory>
    ensures { IfOk result (λ over. Begins (λ (s : State) (f : State → Next). first_value (Q.queries q.now) (accessed_by a.now) s f ty.now (first.Bytes bytes.now)) st.old st.new over) }
{
    match bytes {
        Known::Good(told) => {
            let over = begins_bytes(alloc, q, a, ty, told.as_slice(), st)?;
            Ok(over)
        }
        Known::Bad(_) => Ok(Some(stopped(st))),
    }
}

/// A static field that wasn't accessed before begins.
fn first_value<Q: Answers>(
    alloc: Global,
    q: &Q,
    a: &Accessed,
    ty: &TypeExpr,
    st: &mut State,
) -> Result<Option<StepOut>, NoMemory>
    ensures { IfOk result (λ over. Begins (λ (s : State) (f : State → Next). first_value (Q.queries q.now) (accessed_by a.now) s f ty.now a.now.field.now.first) st.old st.new over) }
{
    match &a.field.first {
        First::EmptyText => {
            let empty = begins_empty(alloc, a, st)?;
            Ok(empty)
        }
        First::Blank => {
            let zero = begins_zero(alloc, q, a, ty, st)?;
            Ok(zero)
        }
        First::Bytes(bytes) => {
            let told = begins_told(alloc, q, a, ty, bytes, st)?;
            Ok(told)
        }
    }
}

/// A static field that is accessed has a value.
fn begun_static<Q: Answers>(
    alloc: Global,
    q: &Q,
    a: &Accessed,
    ty: &TypeExpr,
    st: &mut State,
) -> Result<Option<StepOut>, NoMemory>
    ensures { IfOk result (λ over. Begins (λ (s : State) (f : State → Next). begun_static (Q.queries q.now) (accessed_by a.now) s f ty.now (global_of s a.now.id a.now.owner)) st.old st.new over) }
{
    match global_of(st, a.id, &a.owner) {
        Some(_) => Ok(None),
        None => {
            let over = first_value(alloc, q, a, ty, st)?;
            Ok(over)
        }
    }
}

/// An access to a static field, by its closed type.
fn readied<Q: Answers>(
    alloc: Global,
    q: &Q,
    a: &Accessed,
    ty: TypeExpr,
    st: &mut State,
) -> Result<Ready, NoMemory>
    ensures { IfOk result (λ ready. static_type (Q.queries q.now) (accessed_by a.now) ≡ Some ty → IsReady (Q.queries q.now) (accessed_by a.now) st.old st.new ready) }
{
    let begun = begun_static(alloc, q, a, &ty, st)?;
    match begun {
        None => Ok(Ready::Is(ty)),
        Some(out) => {
            discard(ty);
            Ok(Ready::Over(out))
        }
    }
}

/// An access to a static field. One that wasn't accessed before begins now.
pub fn with_static<Q: Answers>(
    alloc: Global,
    q: &Q,
    a: &Accessed,
    st: &mut State,
) -> Result<Ready, NoMemory>
    ensures { IfOk result (λ ready. IsReady (Q.queries q.now) (accessed_by a.now) st.old st.new ready) }
{
    let found = static_type(alloc, q, a)?;
    match found {
        None => Ok(Ready::Over(stopped(st))),
        Some(ty) => {
            let ready = readied(alloc, q, a, ty, st)?;
            Ok(ready)
        }
    }
}
