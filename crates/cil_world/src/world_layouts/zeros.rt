//! What places hold at first.

ghost use Rattle.std.specs.Prelude.{◌≡◌, Some, IfOk};
ghost use Rattle.il_base.specs.declared.cil_values.value.Value.TheVariants as value;
ghost use Rattle.rules.specs.step_rules.Stores.{zeros_of, zero_shape};

use il_base::NoMemory;
use il_base::cil_values::{Layout, Shape, Value};
use il_base::world_model::TypeExpr;
use machine_words::cil_stores::{number, zeros_of};
use std::alloc::Global;

fn zero_struct(alloc: Global, ty: &TypeExpr, cells: &[Layout]) -> Result<Option<Value>, NoMemory>
    ensures { IfOk result (λ zero. zero ≡ Some (value.Struct ty.now (zeros_of cells.now))) }
{
    let of = ty.copy(alloc)?;
    let cells = zeros_of(alloc, cells)?;
    let zero = Value::structure(alloc, of, cells)?;
    Ok(Some(zero))
}

/// What a place of a type and its shape holds at first: zero, null, or a struct of these. None where there is no value.
pub(crate) fn zero_shape(
    alloc: Global,
    ty: &TypeExpr,
    shape: &Shape,
) -> Result<Option<Value>, NoMemory>
    ensures { IfOk result (λ zero. zero ≡ zero_shape ty.now shape.now) }
{
    match shape {
        Shape::Reference => Ok(Some(Value::Null)),
        Shape::Pointer => Ok(Some(Value::Null)),
        Shape::Integer(code) => Ok(Some(number(*code, 0))),
        Shape::TypeHandle => zero_struct(alloc, ty, &[]),
        Shape::FieldHandle => zero_struct(alloc, ty, &[]),
        Shape::Structure(cells) => zero_struct(alloc, ty, cells.as_slice()),
        Shape::NoValue => Ok(None),
    }
}
