//! The plan of a merge of the kept items.

ghost use Rattle.std.specs.Prelude.{IfOk, IfErr};
ghost use Rattle.merge_plan.specs.Kept.{kept_by};
ghost use Rattle.merge_plan.specs.Contests.{shown_by};
ghost use Rattle.trim_core.specs.program_trim.Programs.{IsPlan, IsInTheWay};

use il_base::Bits;
use il_base::world_model::AsmRec;
use merge_plan::outcome::{Plan, PlanError};
use merge_plan::{KeptItems, plan};
use resolver::type_links::TypeIndex;
use std::alloc::Global;

/// The plan of a merge of the kept types of these assemblies, or the first collision of two of them. `shown` has a flag for each
/// type whose name or identity can be seen when the program runs.
pub(crate) fn plan_of(
    alloc: Global,
    recs: &[AsmRec],
    kept: &KeptItems,
    shown: &Bits,
    internal: bool,
) -> Result<Plan, PlanError>
    ensures planned { IfOk result (IsPlan recs.now (shown_by shown.now) internal (kept_by kept.now)) }
    ensures collides { IfErr result (IsInTheWay recs.now (shown_by shown.now) (kept_by kept.now)) }
{
    let index = match TypeIndex::of(alloc, recs) {
        Err(_) => return Err(PlanError::NoMemory),
        Ok(index) => index,
    };
    match plan(alloc, &index, kept, shown, internal) {
        Err(PlanError::NoMemory) => Err(PlanError::NoMemory),
        Err(PlanError::Collision { first, second }) => Err(PlanError::Collision { first, second }),
        Ok(plan) => Ok(plan),
    }
}
