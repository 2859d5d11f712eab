//! Shapes that no cells are looked at for.

ghost use Rattle.std.specs.Prelude.{◌≡◌, IfOk};
ghost use Rattle.il_base.specs.declared.world_model.expr.TypeExpr.{out-TypeExpr};
ghost use Rattle.rules.specs.view_rules.Layouts.{prim_shape, number_shape};
ghost use Rattle.cil_world.specs.world_layouts.Settled.{number_of, enum_of, handle_shape, settled_kind, settled_home, kind_of, settled, fields_of};

use crate::world_layouts::closing::{numbered_cell, takes};
use crate::world_layouts::kinds::{Handle, TypeKind};
use crate::world_layouts::layouts::Layouts;
use il_base::cil_values::Shape;
use il_base::world_model::TypeExpr;
use il_base::{NoMemory, TypeId, element};
use std::alloc::Global;

/// What a place of a primitive type holds. IntPtr, UIntPtr, Boolean, Char and the integers are numbers; Object and String are
/// classes.
fn prim_shape(code: u8) -> Shape
    ensures { result ≡ prim_shape code }
{
    if code == element::VOID {
        return Shape::NoValue;
    }
    if code == element::STRING || code == element::OBJECT {
        return Shape::Reference;
    }
    Shape::Integer(code)
}

/// The shape of an integer, Boolean or Char; None for any other type.
fn number_of(ty: &TypeExpr) -> Option<Shape>
    ensures { result ≡ number_of ty.now }
{
    match ty {
        TypeExpr::Prim(code) => {
            if *code == element::VOID || *code == element::STRING || *code == element::OBJECT {
                return None;
            }
            Some(Shape::Integer(*code))
        }
        TypeExpr::Def(_) => None,
        TypeExpr::Inst(_, _) => None,
        TypeExpr::Array(_) => None,
        TypeExpr::ByRef(_) => None,
        TypeExpr::Var(_) => None,
        TypeExpr::MVar(_) => None,
        TypeExpr::Mod { .. } => None,
    }
}

/// The shape of an enum, whose instance fields are these: that of the first, where it is a number (II.14.3).
#[tactic(auto, unfolding(crate::specs::world_layouts::Settled::enum_of))]
fn enum_of(
    alloc: Global,
    layouts: &Layouts<'_>,
    args: &[TypeExpr],
    fields: &[u32],
) -> Result<Option<Shape>, NoMemory>
    ensures { IfOk result (λ shape. shape ≡ enum_of layouts.now.recs args.now fields.now) }
{
    let [field, ..] = fields else {
        return Ok(None);
    };
    match numbered_cell(alloc, layouts.definitions(), args, *field) {
        Ok(Some(ty)) => Ok(number_of(&ty)),
        Ok(None) => Ok(None),
        Err(error) => Err(error),
    }
}

fn handle_shape(handle: Option<Handle>) -> Option<Shape>
    ensures { result ≡ handle_shape handle }
{
    match handle {
        None => None,
        Some(Handle::OfType) => Some(Shape::TypeHandle),
        Some(Handle::OfField) => Some(Shape::FieldHandle),
    }
}

/// The shape of a type definition with these arguments; None for a struct.
#[tactic(auto, unfolding(crate::specs::world_layouts::Settled::settled_kind))]
fn settled_kind(
    alloc: Global,
    layouts: &Layouts<'_>,
    ty: TypeId,
    args: &[TypeExpr],
    kind: &TypeKind,
) -> Result<Option<Shape>, NoMemory>
    ensures { IfOk result (λ shape. shape ≡ settled_kind layouts.now.recs ty args.now kind.now) }
{
    if !kind.value {
        return Ok(Some(Shape::Reference));
    }
    if !takes(layouts.definitions(), ty, args.len()) {
        return Ok(Some(Shape::NoValue));
    }
    if kind.enumeration {
        match enum_of(alloc, layouts, args, kind.fields.as_slice()) {
            Ok(Some(shape)) => return Ok(Some(shape)),
            Ok(None) => {}
            Err(error) => return Err(error),
        }
    }
    Ok(handle_shape(kind.handle))
}

fn settled_home(
    alloc: Global,
    layouts: &Layouts<'_>,
    ty: TypeId,
    args: &[TypeExpr],
) -> Result<Option<Shape>, NoMemory>
    ensures { IfOk result (λ shape. shape ≡ settled_home layouts.now.recs ty args.now (kind_of layouts.now.recs ty)) }
{
    match layouts.kind(ty) {
        None => Ok(Some(Shape::NoValue)),
        Some(kind) => settled_kind(alloc, layouts, ty, args, kind),
    }
}

/// What a place of a closed type without modifiers around it holds; None for a struct, whose shape is that of its cells.
#[tactic(auto, unfolding(crate::specs::world_layouts::Settled::settled))]
pub(crate) fn settled(
    alloc: Global,
    layouts: &Layouts<'_>,
    ty: &TypeExpr,
) -> Result<Option<Shape>, NoMemory>
    ensures { IfOk result (λ shape. shape ≡ settled layouts.now.recs ty.now) }
{
    match ty {
        TypeExpr::Prim(code) => Ok(Some(prim_shape(*code))),
        TypeExpr::Def(id) => settled_home(alloc, layouts, *id, &[]),
        TypeExpr::Inst(id, args) => settled_home(alloc, layouts, *id, args.as_slice()),
        TypeExpr::Array(_) => Ok(Some(Shape::Reference)),
        TypeExpr::ByRef(_) => Ok(Some(Shape::Pointer)),
        TypeExpr::Var(_) => Ok(Some(Shape::NoValue)),
        TypeExpr::MVar(_) => Ok(Some(Shape::NoValue)),
        TypeExpr::Mod { .. } => Ok(Some(Shape::NoValue)),
    }
}

/// The instance fields of the definition that a type names, by their ids.
#[tactic(auto, unfolding(crate::specs::world_layouts::Settled::fields_of))]
pub(crate) fn fields_of<'a>(layouts: &'a Layouts<'_>, ty: &TypeExpr) -> &'a [u32]
    ensures { result.now ≡ fields_of layouts.now.recs ty.now }
{
    let kind = match ty {
        TypeExpr::Def(id) => layouts.kind(*id),
        TypeExpr::Inst(id, _) => layouts.kind(*id),
        TypeExpr::Prim(_) => None,
        TypeExpr::Array(_) => None,
        TypeExpr::ByRef(_) => None,
        TypeExpr::Var(_) => None,
        TypeExpr::MVar(_) => None,
        TypeExpr::Mod { .. } => None,
    };
    match kind {
        None => &[],
        Some(kind) => kind.fields.as_slice(),
    }
}
