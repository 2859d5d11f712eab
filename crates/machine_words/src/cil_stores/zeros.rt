//! What places hold at first, and the kinds of types.

ghost use Rattle.std.specs.Prelude.{◌≡◌, Some, IfOk};
ghost use Rattle.il_base.specs.declared.cil_values.value.Value.TheVariants as value;
ghost use Rattle.rules.specs.step_rules.Stores.{zeros_of, zero_shape, zero_of, is_reference_shape, is_reference, is_value_shape, is_value};

use crate::cil_queries::Answers;
use crate::cil_stores::integers::number;
use il_base::cil_values::{Layout, Shape, Value};
use il_base::world_model::TypeExpr;
use il_base::{NoMemory, Seq};
use std::alloc::Global;

/// What some cells hold at first, in their order.
pub fn zeros_of(alloc: Global, cells: &[Layout]) -> Result<Seq<Value>, NoMemory>
    ensures { IfOk result (λ zeros. zeros ≡ zeros_of cells.now) }
{
    let mut zeros = Vec::with_capacity(alloc, cells.len())?;
    for cell in cells {
        let zero = cell.zero.copy(alloc)?;
        zeros.push(zero)?;
    }
    Ok(Seq::from_vec(zeros))
}

/// What the cells of a class hold at first.
pub fn zero_cells<Q: Answers>(alloc: Global, q: &Q, ty: &TypeExpr) -> Result<Seq<Value>, NoMemory>
    ensures { IfOk result (λ cells. cells ≡ zeros_of ((Q.queries q.now).cells ty.now)) }
{
    match q.kept_cells(ty) {
        Some(layouts) => zeros_of(alloc, layouts),
        None => {
            let layouts = q.cells(alloc, ty)?;
            let zeros = zeros_of(alloc, layouts.as_slice())?;
            Ok(zeros)
        }
    }
}

fn zero_struct(alloc: Global, ty: &TypeExpr, cells: &[Layout]) -> Result<Option<Value>, NoMemory>
    ensures { IfOk result (λ zero. zero ≡ Some (value.Struct ty.now (zeros_of cells.now))) }
{
    let of = ty.copy(alloc)?;
    let cells = zeros_of(alloc, cells)?;
    let zero = Value::structure(alloc, of, cells)?;
    Ok(Some(zero))
}

fn zero_shape(alloc: Global, ty: &TypeExpr, shape: &Shape) -> Result<Option<Value>, NoMemory>
    ensures { IfOk result (λ zero. zero ≡ zero_shape ty.now shape.now) }
{
    match shape {
        Shape::Reference => Ok(Some(Value::Null)),
        Shape::Pointer => Ok(Some(Value::Null)),
        Shape::Integer(code) => Ok(Some(number(*code, 0))),
        Shape::TypeHandle => zero_struct(alloc, ty, &[]),
        Shape::FieldHandle => zero_struct(alloc, ty, &[]),
        Shape::Structure(cells) => zero_struct(alloc, ty, cells.as_slice()),
        Shape::NoValue => Ok(None),
    }
}

/// What a place of a closed type holds at first: zero, null, or a struct of these. None for a type without a zero value.
#[tactic(auto, unfolding(rules::specs::step_rules::Stores::zero_of))]
pub fn zero_of<Q: Answers>(alloc: Global, q: &Q, ty: &TypeExpr) -> Result<Option<Value>, NoMemory>
    ensures { IfOk result (λ zero. zero ≡ zero_of (Q.queries q.now) ty.now) }
{
    let shape = q.shape(alloc, ty)?;
    let zero = zero_shape(alloc, ty, &shape)?;
    Ok(zero)
}

pub(crate) fn is_reference_shape(shape: &Shape) -> bool
    ensures { result ≡ is_reference_shape shape.now }
{
    match shape {
        Shape::Reference => true,
        Shape::Pointer => false,
        Shape::Integer(_) => false,
        Shape::TypeHandle => false,
        Shape::FieldHandle => false,
        Shape::Structure(_) => false,
        Shape::NoValue => false,
    }
}

/// Whether a closed type is a class, an interface or an array.
#[tactic(auto, unfolding(rules::specs::step_rules::Stores::is_reference))]
pub fn is_reference<Q: Answers>(alloc: Global, q: &Q, ty: &TypeExpr) -> Result<bool, NoMemory>
    ensures { IfOk result (λ yes. yes ≡ is_reference (Q.queries q.now) ty.now) }
{
    let shape = q.shape(alloc, ty)?;
    Ok(is_reference_shape(&shape))
}

fn is_value_shape(shape: &Shape) -> bool
    ensures { result ≡ is_value_shape shape.now }
{
    match shape {
        Shape::Reference => false,
        Shape::Pointer => false,
        Shape::Integer(_) => true,
        Shape::TypeHandle => true,
        Shape::FieldHandle => true,
        Shape::Structure(_) => true,
        Shape::NoValue => true,
    }
}

/// Whether a closed type is a value type, also one that has no zero value.
#[tactic(auto, unfolding(rules::specs::step_rules::Stores::is_value))]
pub fn is_value<Q: Answers>(alloc: Global, q: &Q, ty: &TypeExpr) -> Result<bool, NoMemory>
    ensures { IfOk result (λ yes. yes ≡ is_value (Q.queries q.now) ty.now) }
{
    let shape = q.shape(alloc, ty)?;
    Ok(is_value_shape(&shape))
}
