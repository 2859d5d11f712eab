//! Values as slots and cells keep them.

ghost use Rattle.std.specs.Prelude.{◌≡◌, IfOk};
ghost use Rattle.rules.specs.step_rules.Stores.{parts_of, is_struct_of, fits_reference, fits_pointer, fits_struct, fits_handle, fits_field_handle, fits_shape, fits, all_fit};

use crate::cil_queries::Answers;
use crate::cil_stores::integers::narrowed;
use il_base::cil_values::{Shape, Value};
use il_base::world_model::TypeExpr;
use il_base::{NoMemory, Seq};
use std::alloc::Global;
use std::mem;

/// The value as a slot of a reference type keeps it: null or an object.
pub fn fits_reference(v: Value) -> Option<Value>
    ensures { result ≡ fits_reference v }
{
    match v {
        Value::Null => Some(Value::Null),
        Value::Object(at) => Some(Value::Object(at)),
        Value::I4(_) => None,
        Value::I8(_) => None,
        Value::Native(_) => None,
        Value::Pointer(_) => None,
        Value::Struct(_, _) => None,
        Value::Handle(_) => None,
        Value::FieldHandle(_) => None,
    }
}

/// The value as a slot of a by-reference type keeps it: null or a managed pointer.
fn fits_pointer(v: Value) -> Option<Value>
    ensures { result ≡ fits_pointer v }
{
    match v {
        Value::Null => Some(Value::Null),
        Value::Pointer(path) => Some(Value::Pointer(path)),
        Value::I4(_) => None,
        Value::I8(_) => None,
        Value::Native(_) => None,
        Value::Object(_) => None,
        Value::Struct(_, _) => None,
        Value::Handle(_) => None,
        Value::FieldHandle(_) => None,
    }
}

/// Whether a value is a struct of this type.
#[tactic(auto, unfolding(rules::specs::step_rules::Stores::parts_of))]
fn is_struct_of(ty: &TypeExpr, v: &Value) -> bool
    ensures { result ≡ is_struct_of ty.now (parts_of v.now) }
{
    match v {
        Value::Struct(of, _) => of.get().is_same(ty),
        Value::Null => false,
        Value::I4(_) => false,
        Value::I8(_) => false,
        Value::Native(_) => false,
        Value::Object(_) => false,
        Value::Pointer(_) => false,
        Value::Handle(_) => false,
        Value::FieldHandle(_) => false,
    }
}

/// A struct fits its own type alone.
fn fits_struct(ty: &TypeExpr, v: Value) -> Option<Value>
    ensures { result ≡ fits_struct ty.now v }
{
    if is_struct_of(ty, &v) { Some(v) } else { None }
}

/// The value as a slot of type RuntimeTypeHandle keeps it.
fn fits_handle(ty: &TypeExpr, v: Value) -> Option<Value>
    ensures { result ≡ fits_handle ty.now v }
{
    match v {
        Value::Handle(of) => Some(Value::Handle(of)),
        Value::Null => fits_struct(ty, Value::Null),
        Value::I4(n) => fits_struct(ty, Value::I4(n)),
        Value::I8(n) => fits_struct(ty, Value::I8(n)),
        Value::Native(n) => fits_struct(ty, Value::Native(n)),
        Value::Object(at) => fits_struct(ty, Value::Object(at)),
        Value::Pointer(path) => fits_struct(ty, Value::Pointer(path)),
        Value::Struct(of, cells) => fits_struct(ty, Value::Struct(of, cells)),
        Value::FieldHandle(field) => fits_struct(ty, Value::FieldHandle(field)),
    }
}

/// The value as a slot of type RuntimeFieldHandle keeps it.
fn fits_field_handle(ty: &TypeExpr, v: Value) -> Option<Value>
    ensures { result ≡ fits_field_handle ty.now v }
{
    match v {
        Value::FieldHandle(field) => Some(Value::FieldHandle(field)),
        Value::Null => fits_struct(ty, Value::Null),
        Value::I4(n) => fits_struct(ty, Value::I4(n)),
        Value::I8(n) => fits_struct(ty, Value::I8(n)),
        Value::Native(n) => fits_struct(ty, Value::Native(n)),
        Value::Object(at) => fits_struct(ty, Value::Object(at)),
        Value::Pointer(path) => fits_struct(ty, Value::Pointer(path)),
        Value::Struct(of, cells) => fits_struct(ty, Value::Struct(of, cells)),
        Value::Handle(of) => fits_struct(ty, Value::Handle(of)),
    }
}

fn fits_shape(ty: &TypeExpr, shape: &Shape, v: Value) -> Option<Value>
    ensures { result ≡ fits_shape ty.now shape.now v }
{
    match shape {
        Shape::Reference => fits_reference(v),
        Shape::Pointer => fits_pointer(v),
        Shape::Integer(code) => narrowed(*code, &v),
        Shape::TypeHandle => fits_handle(ty, v),
        Shape::FieldHandle => fits_field_handle(ty, v),
        Shape::Structure(_) => fits_struct(ty, v),
        Shape::NoValue => None,
    }
}

/// The value as a place of a closed type keeps it. None where the kinds don't match; types of objects aren't compared.
#[tactic(auto, unfolding(rules::specs::step_rules::Stores::fits))]
pub fn fits<Q: Answers>(
    alloc: Global,
    q: &Q,
    ty: &TypeExpr,
    v: Value,
) -> Result<Option<Value>, NoMemory>
    ensures { IfOk result (λ kept. kept ≡ fits (Q.queries q.now) ty.now v) }
{
    let shape = q.shape(alloc, ty)?;
    Ok(fits_shape(ty, &shape, v))
}

/// Each value as its slot keeps it. None where one doesn't fit, or there isn't one value for each slot.
pub fn all_fit<Q: Answers>(
    alloc: Global,
    q: &Q,
    types: &[TypeExpr],
    values: Seq<Value>,
) -> Result<Option<Seq<Value>>, NoMemory>
    ensures { IfOk result (λ kept. kept ≡ all_fit (Q.queries q.now) types.now values) }
{
    let mut items = values.into_vec();
    for (i, ty) in types.iter().enumerate() {
        if i >= items.len() {
            return Ok(None);
        }
        let v = mem::replace(&mut items[i], Value::Null);
        let Some(kept) = fits(alloc, q, ty, v)? else {
            return Ok(None);
        };
        items[i] = kept;
    }
    if types.len() < items.len() {
        return Ok(None);
    }
    Ok(Some(Seq::from_vec(items)))
}
