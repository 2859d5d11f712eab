//! Cells of fields, in instances of classes and in structs.

ghost use Rattle.std.specs.Prelude.{◌≡◌, IfOk};
ghost use Rattle.std.specs.Option.{option_copied, option_map};
ghost use Rattle.il_base.specs.declared.cil_values.layout.Cell.TheVariants as cell;
ghost use Rattle.il_base.specs.declared.cil_values.layout.Shape.TheVariants as shapes;
ghost use Rattle.rules.specs.step_rules.Places.{same_cell};
ghost use Rattle.rules.specs.step_rules.Fields.{layout_of, struct_cell, struct_cell_in};
ghost use Rattle.machine_objects.specs.cil_fields.Placing.{cell_by};

use il_base::NoMemory;
use il_base::cil_values::{Cell, Layout, Shape};
use il_base::world_model::TypeExpr;
use machine_words::cil_places::cell_place;
use machine_words::cil_queries::Answers;
use std::alloc::Global;

/// A cell of a struct.
#[derive(Drop)]
pub struct StructCell {
    /// Its number, from 0.
    pub number: u32,
    /// Its closed type.
    pub typ: TypeExpr,
}

/// Whether a cell is a field's, by the field's place in the world.
fn is_cell(field: u32, c: Cell) -> bool
    ensures { result ≡ same_cell (cell.Field field) c }
{
    match c {
        Cell::Field(other) => field == other,
        Cell::Message => false,
        Cell::Inner => false,
    }
}

/// The cell of a field, by the field's place in the world.
pub(crate) fn layout_of(field: u32, cells: &[Layout]) -> Option<&Layout>
    ensures { option_copied result ≡ layout_of (cell.Field field) cells.now }
{
    for one in cells {
        if is_cell(field, one.cell) {
            return Some(one);
        }
    }
    None
}

/// The cell of a field among those of a struct. A cell after 4294967295 others is answered as want of memory.
fn cell_with(alloc: Global, field: u32, cells: &[Layout]) -> Result<Option<StructCell>, NoMemory>
    ensures { IfOk result (λ c. option_map cell_by c ≡ struct_cell_in (cell.Field field) (shapes.Structure cells.now)) }
{
    let Some(k) = cell_place(Cell::Field(field), cells) else {
        return Ok(None);
    };
    let Some(l) = layout_of(field, cells) else {
        return Ok(None);
    };
    if k > u32::MAX as usize {
        return Err(NoMemory);
    }
    let typ = l.typ.copy(alloc)?;
    Ok(Some(StructCell {
        number: k as u32,
        typ,
    }))
}

fn struct_cell_in(alloc: Global, field: u32, shape: &Shape) -> Result<Option<StructCell>, NoMemory>
    ensures { IfOk result (λ c. option_map cell_by c ≡ struct_cell_in (cell.Field field) shape.now) }
{
    match shape {
        Shape::Structure(cells) => cell_with(alloc, field, cells.as_slice()),
        Shape::Reference => Ok(None),
        Shape::Pointer => Ok(None),
        Shape::Integer(_) => Ok(None),
        Shape::TypeHandle => Ok(None),
        Shape::FieldHandle => Ok(None),
        Shape::NoValue => Ok(None),
    }
}

/// The cell of a field in the structs of a closed type. None where these have no such cell.
#[tactic(auto, unfolding(rules::specs::step_rules::Fields::struct_cell))]
pub(crate) fn struct_cell<Q: Answers>(
    alloc: Global,
    q: &Q,
    ty: &TypeExpr,
    field: u32,
) -> Result<Option<StructCell>, NoMemory>
    ensures { IfOk result (λ c. option_map cell_by c ≡ struct_cell (Q.queries q.now) ty.now (cell.Field field)) }
{
    let shape = q.shape(alloc, ty)?;
    let found = struct_cell_in(alloc, field, &shape)?;
    Ok(found)
}
