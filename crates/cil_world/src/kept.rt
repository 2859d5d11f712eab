//! Cells that are made once, of types without arguments.

ghost use Rattle.std.specs.Prelude.{◌≡◌, List, Some, slice_get, IfOk, IfSome};
ghost use Rattle.il_base.specs.declared.world_model.record.AsmRec.{AsmRec as Records};
ghost use Rattle.rules.specs.view_rules.Layouts.{cells_query};
ghost use Rattle.cil_world.specs.Kept.{AreKept, IsKept};

use crate::world_layouts::Layouts;
use crate::world_types::ClosedTypes;
use il_base::cil_values::Layout;
use il_base::world_model::{AsmRec, TypeExpr};
use il_base::{NoMemory, Seq, TypeId};
use std::alloc::Global;

/// How many bases and fields are looked at for all types together; the cells of further types aren't kept.
const MOST_LOOKED_AT: usize = 262_144;

/// How many type definitions the assemblies have, or the greatest number.
fn type_count(all: &[AsmRec]) -> u32 {
    let mut count: u32 = 0;
    for rec in all {
        count = match u32::try_from(rec.type_def.len()) {
            Ok(more) => count.saturating_add(more),
            Err(_) => u32::MAX,
        };
    }
    count
}

/// The cells of a type, by its place in the world, where they are soon made.
fn kept_of(
    alloc: Global,
    layouts: &Layouts<'_>,
    types: &ClosedTypes<'_>,
    n: u32,
    room: &mut usize,
) -> Result<Option<Seq<Layout>>, NoMemory>
    requires { types.now ≡ layouts.now }
    ensures { IfOk result (IsKept layouts.now.recs n) }
{
    let ty = TypeExpr::Def(TypeId(n));
    if !layouts.is_flat(alloc, types, &ty, room)? {
        return Ok(None);
    }
    let cells = layouts.cells(alloc, types, &ty)?;
    Ok(Some(cells))
}

/// What is kept of the type definitions below a number.
fn kept_below(
    alloc: Global,
    layouts: &Layouts<'_>,
    types: &ClosedTypes<'_>,
    count: u32,
) -> Result<Vec<Option<Seq<Layout>>>, NoMemory>
    requires { types.now ≡ layouts.now }
    ensures { IfOk result (λ kept. AreKept layouts.now.recs kept.items) }
{
    let mut kept = Vec::new(alloc);
    let mut room = MOST_LOOKED_AT;
    for n in 0..count {
        let one = kept_of(alloc, layouts, types, n, &mut room)?;
        kept.push(one)?;
    }
    Ok(kept)
}

/// What is kept of each type definition, by its place in the world.
pub(crate) fn all_kept(
    alloc: Global,
    layouts: &Layouts<'_>,
    types: &ClosedTypes<'_>,
) -> Result<Vec<Option<Seq<Layout>>>, NoMemory>
    requires { types.now ≡ layouts.now }
    ensures { IfOk result (λ kept. AreKept layouts.now.recs kept.items) }
{
    let count = type_count(types.recs());
    kept_below(alloc, layouts, types, count)
}

/// The cells that are kept of a type definition.
fn cells_at(kept: &[Option<Seq<Layout>>], n: u32) -> Option<&[Layout]>
    ensures { IfSome result (λ cells. slice_get kept.now n ≡ Some (Some cells.now)) }
{
    match kept.get(n as usize) {
        Some(Some(cells)) => Some(cells.as_slice()),
        Some(None) => None,
        None => None,
    }
}

/// The cells that are kept of a type.
pub(crate) fn cells_in<'a>(kept: &'a [Option<Seq<Layout>>], ty: &TypeExpr) -> Option<&'a [Layout]>
    ensures { IfSome result (λ cells. (recs : List Records) → AreKept recs kept.now → cells.now ≡ cells_query recs ty.now) }
{
    match ty {
        TypeExpr::Def(id) => cells_at(kept, id.0),
        TypeExpr::Prim(_) => None,
        TypeExpr::Inst(_, _) => None,
        TypeExpr::Array(_) => None,
        TypeExpr::ByRef(_) => None,
        TypeExpr::Var(_) => None,
        TypeExpr::MVar(_) => None,
        TypeExpr::Mod { .. } => None,
    }
}
