//! What places of closed types hold.

ghost use Rattle.std.specs.Prelude.{◌≡◌, IfOk};
ghost use Rattle.rules.specs.link_rules.Members.{args_of};
ghost use Rattle.rules.specs.view_rules.Layouts.{without_struct, struct_shape, shape_within};
ghost use Rattle.cil_world.specs.world_layouts.Fields.{numbered_layout, numbered_cells};

use crate::world_layouts::closing::{numbered_cell, plain_of};
use crate::world_layouts::layouts::Layouts;
use crate::world_layouts::settled::{fields_of, settled};
use crate::world_layouts::zeros::zero_shape;
use il_base::cil_values::{Cell, Layout, Shape};
use il_base::world_model::TypeExpr;
use il_base::{NoMemory, Seq};
use std::alloc::Global;
use type_tables::member_search::bases::args_of;

/// A shape, where a struct or a handle has none.
fn without_struct(shape: Shape) -> Shape
    ensures { result ≡ without_struct shape }
{
    match shape {
        Shape::Reference => Shape::Reference,
        Shape::Pointer => Shape::Pointer,
        Shape::Integer(code) => Shape::Integer(code),
        Shape::TypeHandle => Shape::NoValue,
        Shape::FieldHandle => Shape::NoValue,
        Shape::Structure(_) => Shape::NoValue,
        Shape::NoValue => Shape::NoValue,
    }
}

fn struct_shape(cells: Option<Seq<Layout>>) -> Shape
    ensures { result ≡ struct_shape cells }
{
    match cells {
        None => Shape::NoValue,
        Some(cells) => Shape::Structure(cells),
    }
}

/// What a place of a closed type holds, where a struct of more than `depth` structs in one another has no value.
#[cycle(shapes)]
#[tactic(auto, using(crate::proofs::lemmas::world_layouts::Shaped::at_bottom, crate::proofs::lemmas::world_layouts::Shaped::further_up))]
pub(crate) fn shape_within(
    alloc: Global,
    layouts: &Layouts<'_>,
    depth: u32,
    ty: &TypeExpr,
) -> Result<Shape, NoMemory>
    ensures { IfOk result (λ shape. shape ≡ shape_within layouts.now.recs depth ty.now) }
{
    let ty = plain_of(ty);
    match settled(alloc, layouts, ty) {
        Err(error) => Err(error),
        Ok(Some(shape)) => {
            if depth == 0 {
                Ok(without_struct(shape))
            } else {
                Ok(shape)
            }
        }
        Ok(None) => {
            if depth == 0 {
                return Ok(Shape::NoValue);
            }
            let fields = fields_of(layouts, ty);
            let cells = cells_within(alloc, layouts, depth - 1, args_of(ty), fields)?;
            Ok(struct_shape(cells))
        }
    }
}

/// The cells of some fields, where their type has these arguments; None where one has no value.
#[cycle(shapes)]
#[tactic(auto, unfolding(crate::specs::world_layouts::Fields::numbered_cells))]
fn cells_within(
    alloc: Global,
    layouts: &Layouts<'_>,
    depth: u32,
    args: &[TypeExpr],
    fields: &[u32],
) -> Result<Option<Seq<Layout>>, NoMemory>
    ensures { IfOk result (λ cells. cells ≡ numbered_cells layouts.now.recs (shape_within layouts.now.recs depth) args.now fields.now) }
{
    let mut cells = Seq::new(alloc);
    for field in fields {
        match layout_within(alloc, layouts, depth, args, *field) {
            Err(error) => return Err(error),
            Ok(None) => return Ok(None),
            Ok(Some(cell)) => cells.push(cell)?,
        }
    }
    Ok(Some(cells))
}

/// The cell of a field, by its id, where its type has these arguments; None where its type is bad or has no value.
#[cycle(shapes)]
#[tactic(auto, unfolding(crate::specs::world_layouts::Fields::numbered_layout))]
pub(crate) fn layout_within(
    alloc: Global,
    layouts: &Layouts<'_>,
    depth: u32,
    args: &[TypeExpr],
    field: u32,
) -> Result<Option<Layout>, NoMemory>
    ensures { IfOk result (λ cell. cell ≡ numbered_layout layouts.now.recs (shape_within layouts.now.recs depth) args.now field) }
{
    let typ = match numbered_cell(alloc, layouts.definitions(), args, field) {
        Err(error) => return Err(error),
        Ok(None) => return Ok(None),
        Ok(Some(typ)) => typ,
    };
    let shape = shape_within(alloc, layouts, depth, &typ)?;
    match zero_shape(alloc, &typ, &shape) {
        Err(error) => Err(error),
        Ok(None) => Ok(None),
        Ok(Some(zero)) => Ok(Some(Layout {
            cell: Cell::Field(field),
            typ,
            zero,
        })),
    }
}
