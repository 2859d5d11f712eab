//! Cells of instances of classes.

ghost use Rattle.std.specs.Prelude.{◌≡◌, Some, None, IfOk, MatchBool};
ghost use Rattle.std.specs.Option.{option_copied};
ghost use Rattle.rules.specs.step_rules.Places.{same_cell, cell_place, cell_of, set_if, with_cell, cell_in};

use crate::cil_queries::Answers;
use il_base::cil_values::{Cell, Layout, Obj, Value};
use il_base::world_model::TypeExpr;
use il_base::{NoMemory, Seq};
use std::alloc::Global;

fn same_cell(a: Cell, b: Cell) -> bool
    ensures { result ≡ same_cell a b }
{
    match (a, b) {
        (Cell::Field(a), Cell::Field(b)) => a == b,
        (Cell::Message, Cell::Message) => true,
        (Cell::Inner, Cell::Inner) => true,
        (Cell::Field(_), Cell::Message) => false,
        (Cell::Field(_), Cell::Inner) => false,
        (Cell::Message, Cell::Field(_)) => false,
        (Cell::Message, Cell::Inner) => false,
        (Cell::Inner, Cell::Field(_)) => false,
        (Cell::Inner, Cell::Message) => false,
    }
}

/// The number of a cell among those of a type, from 0.
#[tactic(auto, unfolding(rules::specs::step_rules::Places::cell_place))]
pub fn cell_place(c: Cell, cells: &[Layout]) -> Option<usize>
    ensures { result ≡ cell_place c cells.now }
{
    cells.iter().position(|l| same_cell(c, l.cell))
}

/// The number of a cell among those of an instance of a class, from 0.
fn place_of_cell<Q: Answers>(
    alloc: Global,
    q: &Q,
    ty: &TypeExpr,
    c: Cell,
) -> Result<Option<usize>, NoMemory>
    ensures { IfOk result (λ at. at ≡ cell_place c ((Q.queries q.now).cells ty.now)) }
{
    match q.kept_cells(ty) {
        Some(layouts) => Ok(cell_place(c, layouts)),
        None => {
            let layouts = q.cells(alloc, ty)?;
            Ok(cell_place(c, layouts.as_slice()))
        }
    }
}

/// The value in a cell of an instance of a class, whose closed type and cells these are.
#[tactic(auto, unfolding(rules::specs::step_rules::Places::cell_of))]
pub fn cell_of<'a, Q: Answers>(
    alloc: Global,
    q: &Q,
    ty: &TypeExpr,
    cells: &'a [Value],
    c: Cell,
) -> Result<Option<&'a Value>, NoMemory>
    ensures { IfOk result (λ v. option_copied v ≡ cell_of (Q.queries q.now) ty.now cells.now c) }
{
    match place_of_cell(alloc, q, ty, c)? {
        None => Ok(None),
        Some(at) => Ok(cells.get(at)),
    }
}

/// Puts a value into a cell of an instance of a class, whose closed type and cells these are. False where there is no such
/// cell: then nothing is changed.
#[tactic(auto, unfolding(rules::specs::step_rules::Places::with_cell))]
pub fn with_cell<Q: Answers>(
    alloc: Global,
    q: &Q,
    ty: &TypeExpr,
    cells: &mut Seq<Value>,
    c: Cell,
    v: &Value,
) -> Result<bool, NoMemory>
    ensures { IfOk result (λ done. MatchBool done (with_cell (Q.queries q.now) ty.now cells.old c v.now ≡ Some cells.new) ((with_cell (Q.queries q.now) ty.now cells.old c v.now ≡ None) × (cells.new ≡ cells.old))) }
{
    match place_of_cell(alloc, q, ty, c)? {
        None => Ok(false),
        Some(at) => set_if(alloc, cells, at, v),
    }
}

/// Puts a value into a list, if the list has such a place.
pub(crate) fn set_if(
    alloc: Global,
    cells: &mut Seq<Value>,
    at: usize,
    v: &Value,
) -> Result<bool, NoMemory>
    ensures { IfOk result (λ done. MatchBool done (set_if cells.old v.now at ≡ Some cells.new) ((set_if cells.old v.now at ≡ None) × (cells.new ≡ cells.old))) }
{
    match cells.get(at) {
        None => Ok(false),
        Some(_) => {
            let v = v.copy(alloc)?;
            cells.set(at, v);
            Ok(true)
        }
    }
}

/// The value in a cell of an object. None for an object that is no instance, and where its type has no such cell.
pub fn cell_in<'a, Q: Answers>(
    alloc: Global,
    q: &Q,
    c: Cell,
    o: &'a Obj,
) -> Result<Option<&'a Value>, NoMemory>
    ensures { IfOk result (λ v. option_copied v ≡ cell_in (Q.queries q.now) c o.now) }
{
    match o {
        Obj::Instance { of, cells } => cell_of(alloc, q, of, cells.as_slice(), c),
        Obj::Boxed { .. } => Ok(None),
        Obj::Array { .. } => Ok(None),
        Obj::Str(_) => Ok(None),
        Obj::TypeOf(_) => Ok(None),
        Obj::Member(_, _) => Ok(None),
    }
}
