//! The record that is left.

ghost use Rattle.std.specs.Prelude.{◌≡◌, Some, slice_get, IfOk};
ghost use Rattle.rules.specs.link_rules.Linked.{IsWorld};
ghost use Rattle.rules.specs.merge_rules.Restricted.{restricted};
ghost use Rattle.merge_plan.specs.Kept.{kept_by};
ghost use Rattle.merged_tables.specs.Parts.{output_by};
ghost use Rattle.restrict.specs.Plans.{HasNewNames};
ghost use Rattle.restrict.specs.Rows.{AreOutputRows};

use crate::record::{first_rows, made};
use crate::rows::{OutputRows, output_rows};
use il_base::NoMemory;
use il_base::world_model::{AsmRec, World};
use mark_parts::mark_tables::marker::Marker;
use merge_plan::KeptItems;
use merge_plan::outcome::Plan;
use resolver::type_links::TypeIndex;
use std::alloc::Global;
use type_tables::member_search::linked::assembly_at;

/// The rows of the output of a world with these kept items, without the own rows of `first`, the first assembly.
fn rows_left(
    alloc: Global,
    world: &World,
    kept: &KeptItems,
    plan: &Plan,
    first: &AsmRec,
) -> Result<OutputRows, NoMemory>
    requires world { IsWorld world.now }
    requires plan { HasNewNames world.now.recs (kept_by kept.now) plan.now }
    requires first { slice_get world.now.recs 0 ≡ Some first.now }
    ensures { IfOk result (AreOutputRows plan.now.internal (output_by world.now.recs (kept_by kept.now)) first.now) }
{
    let marker = Marker::of(alloc, world)?;
    let recs = world.recs.as_slice();
    let index = TypeIndex::of(alloc, recs)?;
    output_rows(alloc, &marker, &index, kept, plan, first)
}

/// The record that is left of a world's assemblies, of which the last is the core library. `plan` has the new names of the kept
/// types.
pub fn restrict(
    alloc: Global,
    world: &World,
    kept: &KeptItems,
    plan: &Plan,
) -> Result<AsmRec, NoMemory>
    requires world { IsWorld world.now }
    requires plan { HasNewNames world.now.recs (kept_by kept.now) plan.now }
    ensures { IfOk result (λ left. restricted plan.now.internal world.now.recs (kept_by kept.now) ≡ Some left) }
{
    let recs = world.recs.as_slice();
    let Some(first) = assembly_at(recs, 0) else {
        return Err(NoMemory);
    };
    let own = first_rows(alloc, first)?;
    let rows = rows_left(alloc, world, kept, plan, first)?;
    Ok(made(alloc, first, own, rows))
}
