//! The cells of objects.

ghost use Rattle.std.specs.Prelude.{◌≡◌, [], ◌++◌, reverse, IfOk, OnOk, if◌then◌else◌};
ghost use Rattle.std.specs.List.{list_any, flat_map};
ghost use Rattle.il_base.specs.declared.core_table.names.CoreName.TheVariants as core;
ghost use Rattle.rules.specs.view_rules.Members.{core_type_row};
ghost use Rattle.rules.specs.view_rules.Layouts.{is_core_type, is_exception, exception_cells, own_cells, cells_query};
ghost use Rattle.cil_world.specs.world_layouts.Cells.{cells_of_fields, cells_of_kind};

use crate::world_core::core_type_row;
use crate::world_layouts::layouts::{Layouts, MOST_NESTED};
use crate::world_layouts::shapes::layout_within;
use crate::world_types::ClosedTypes;
use il_base::cil_values::{Cell, Layout, Value};
use il_base::core_table::CoreName;
use il_base::world_model::{AsmRec, TypeExpr};
use il_base::{NoMemory, Seq, TypeId, element};
use rules::link_rules::RowAt;
use std::alloc::Global;
use type_tables::member_search::bases::{args_of, definition, owner_of};

/// Whether the definition of a type is System.Exception, whose row in the core library is this, from 0.
fn is_exception(all: &[AsmRec], row: u32, ty: &TypeExpr) -> Result<bool, NoMemory>
    requires { row ≡ core_type_row core.Exception }
    ensures { IfOk result (λ yes. yes ≡ is_exception all.now ty.now) }
{
    match definition(all, ty) {
        Err(error) => Err(error),
        Ok(None) => Ok(false),
        Ok(Some(at)) => Ok(is_row(all, row, at)),
    }
}

fn is_row(all: &[AsmRec], row: u32, at: RowAt) -> bool
    requires { row ≡ core_type_row core.Exception }
    ensures { result ≡ is_core_type all.now core.Exception at }
{
    at.asm as usize + 1 == all.len() && at.row == row
}

/// Whether System.Exception is among some types.
fn has_exception(all: &[AsmRec], types: &[TypeExpr]) -> Result<bool, NoMemory>
    ensures { IfOk result (λ yes. yes ≡ list_any (is_exception all.now) types.now) }
{
    let row = core_type_row(CoreName::Exception);
    for ty in types {
        let found = is_exception(all, row, ty)?;
        if found {
            return Ok(true);
        }
    }
    Ok(false)
}

/// The message and the inner exception that every exception has.
fn exception_cells(alloc: Global, types: &ClosedTypes<'_>) -> Result<Seq<Layout>, NoMemory>
    ensures { IfOk result (λ cells. cells ≡ exception_cells types.now.recs) }
{
    let exception = types.known(CoreName::Exception);
    let mut cells = Seq::new(alloc);
    cells.push(Layout {
        cell: Cell::Message,
        typ: TypeExpr::Prim(element::STRING),
        zero: Value::Null,
    })?;
    cells.push(Layout {
        cell: Cell::Inner,
        typ: TypeExpr::Def(TypeId(exception)),
        zero: Value::Null,
    })?;
    Ok(cells)
}

/// What an object of a type and its bases begins with: an exception's own cells, or none.
fn first_cells(
    alloc: Global,
    types: &ClosedTypes<'_>,
    bases: &[TypeExpr],
) -> Result<Seq<Layout>, NoMemory>
    ensures { IfOk result (λ cells. cells ≡ (if list_any (is_exception types.now.recs) bases.now then exception_cells types.now.recs else [])) }
{
    let found = has_exception(types.recs(), bases)?;
    if found {
        return exception_cells(alloc, types);
    }
    Ok(Seq::new(alloc))
}

/// Adds the cells of some fields, by their ids, where their type has these arguments.
fn add_fields(
    alloc: Global,
    layouts: &Layouts<'_>,
    args: &[TypeExpr],
    fields: &[u32],
    cells: &mut Seq<Layout>,
) -> Result<(), NoMemory>
    ensures { OnOk result (cells.new ≡ cells.old ++ cells_of_fields layouts.now.recs args.now fields.now) }
{
    for field in fields {
        match layout_within(alloc, layouts, MOST_NESTED, args, *field) {
            Err(error) => return Err(error),
            Ok(None) => {}
            Ok(Some(cell)) => cells.push(cell)?,
        }
    }
    Ok(())
}

/// Adds the cells of a type's own fields.
#[tactic(auto, using(crate::proofs::lemmas::world_layouts::Own::own_same))]
fn add_own(
    alloc: Global,
    layouts: &Layouts<'_>,
    types: &ClosedTypes<'_>,
    ty: &TypeExpr,
    cells: &mut Seq<Layout>,
) -> Result<(), NoMemory>
    requires { types.now ≡ layouts.now }
    ensures { OnOk result (cells.new ≡ cells.old ++ own_cells layouts.now.recs ty.now) }
{
    let owner = owner_of(types.recs(), ty)?;
    let Some(id) = owner else {
        return Ok(());
    };
    match layouts.kind(id) {
        None => Ok(()),
        Some(kind) => add_fields(alloc, layouts, args_of(ty), kind.fields.as_slice(), cells),
    }
}

/// Adds the cells of a type and its bases, those of the last one first.
#[tactic(auto, using(crate::proofs::lemmas::world_layouts::Own::one_before))]
fn add_all(
    alloc: Global,
    layouts: &Layouts<'_>,
    types: &ClosedTypes<'_>,
    bases: &[TypeExpr],
    cells: &mut Seq<Layout>,
) -> Result<(), NoMemory>
    requires { types.now ≡ layouts.now }
    ensures { OnOk result (cells.new ≡ cells.old ++ flat_map (own_cells layouts.now.recs) (reverse bases.now)) }
{
    match bases {
        [] => Ok(()),
        [nearest, above @ ..] => {
            add_all(alloc, layouts, types, above, cells)?;
            add_own(alloc, layouts, types, nearest, cells)?;
            Ok(())
        }
    }
}

impl Layouts<'_> {
    /// The cells of an instance of a class: those of its bases first, before these an exception's own.
    #[tactic(auto, unfolding(rules::specs::view_rules::Layouts::cells_query))]
    pub fn cells(
        &self,
        alloc: Global,
        types: &ClosedTypes<'_>,
        ty: &TypeExpr,
    ) -> Result<Seq<Layout>, NoMemory>
        requires { types.now ≡ self.now }
        ensures { IfOk result (λ cells. cells ≡ cells_query self.now.recs ty.now) }
    {
        let bases = types.with_bases(alloc, ty)?;
        let mut cells = first_cells(alloc, types, bases.as_slice())?;
        add_all(alloc, self, types, bases.as_slice(), &mut cells)?;
        Ok(cells)
    }
}
