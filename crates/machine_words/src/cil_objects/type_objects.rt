//! The objects of types, one for each closed type.

ghost use Rattle.std.specs.Prelude.{◌≡◌, ℕ, None, slice_get, find, IfOk};
ghost use Rattle.std.specs.Option.{option_copied};
ghost use Rattle.il_base.specs.declared.cil_values.state.State.{State};
ghost use Rattle.rules.specs.step_rules.Next.{Next};
ghost use Rattle.rules.specs.step_rules.CoreTypes.{typed_in, typed_at, typed_by, is_type, typed, with_type};

use il_base::cil_values::{Heap, Obj, State, Value};
use il_base::world_model::TypeExpr;
use il_base::{NoMemory, Seq};
use std::alloc::Global;

/// The type that an object stands for. None for another object.
fn typed_in(o: &Obj) -> Option<&TypeExpr>
    ensures { option_copied result ≡ typed_in o.now }
{
    match o {
        Obj::TypeOf(ty) => Some(ty),
        Obj::Instance { .. } => None,
        Obj::Boxed { .. } => None,
        Obj::Array { .. } => None,
        Obj::Str(_) => None,
        Obj::Member(_, _) => None,
    }
}

fn typed_at(heap: &Heap, at: u32) -> Option<&TypeExpr>
    ensures { option_copied result ≡ typed_at (slice_get heap.now at) }
{
    match heap.get(at) {
        Some(o) => typed_in(o),
        None => None,
    }
}

/// The type whose object a value names. None for any other value.
#[tactic(auto, unfolding(rules::specs::step_rules::CoreTypes::typed_by))]
pub fn typed_by<'a>(st: &'a State, v: &Value) -> Option<&'a TypeExpr>
    ensures { option_copied result ≡ typed_by st.now v.now }
{
    match v {
        Value::Object(at) => typed_at(&st.heap, *at),
        Value::Null => None,
        Value::I4(_) => None,
        Value::I8(_) => None,
        Value::Native(_) => None,
        Value::Pointer(_) => None,
        Value::Struct(_, _) => None,
        Value::Handle(_) => None,
        Value::FieldHandle(_) => None,
    }
}

/// Whether the object with a number is that of a type.
fn is_type(heap: &Heap, at: u32, ty: &TypeExpr) -> bool
    ensures { result ≡ is_type ty.now (typed_at (slice_get heap.now at)) }
{
    match typed_at(heap, at) {
        Some(other) => other.is_same(ty),
        None => false,
    }
}

/// The object of a type, where it was made before.
fn type_object(heap: &Heap, types: &Seq<u32>, ty: &TypeExpr) -> Option<u32>
    ensures { result ≡ find (λ at. is_type ty.now (typed_at (slice_get heap.now at))) types.now }
{
    for at in types.as_slice() {
        if is_type(heap, *at, ty) {
            return Some(*at);
        }
    }
    None
}

/// A new object of a type.
fn new_type(alloc: Global, st: &mut State, ty: &TypeExpr) -> Result<u32, NoMemory>
    ensures { IfOk result (λ at. (f : ℕ → State → Next) → with_type ty.now st.old f None ≡ f at st.new) }
{
    let copy = ty.copy(alloc)?;
    let at = st.heap.add(Obj::TypeOf(copy))?;
    st.types.push(at)?;
    Ok(at)
}

/// The one object of a closed type, which is made now where it wasn't there.
#[tactic(auto, unfolding(rules::specs::step_rules::CoreTypes::typed, rules::specs::step_rules::CoreTypes::type_object))]
pub fn typed(alloc: Global, st: &mut State, ty: &TypeExpr) -> Result<u32, NoMemory>
    ensures { IfOk result (λ at. (f : ℕ → State → Next) → typed ty.now st.old f ≡ f at st.new) }
{
    match type_object(&st.heap, &st.types, ty) {
        Some(at) => Ok(at),
        None => {
            let made = new_type(alloc, st, ty)?;
            Ok(made)
        }
    }
}
