//! The trim of a linked world.

ghost use Rattle.std.specs.Prelude.{◌≡◌, None};
ghost use Rattle.rules.specs.link_rules.Linked.{IsWorld};
ghost use Rattle.base_laws.specs.flaw_laws.There.{RowsThere};
ghost use Rattle.merge_plan.specs.Kept.{kept_by};
ghost use Rattle.trim_core.specs.program_trim.Programs.{IsLinked, IsGood, FollowsAll, HasFirstNotYet, IsSpelled, HasMarks, Keeps, Collides, Names, Leaves, Trims, place_of, refusal_by};
ghost use Rattle.trim_core.specs.program_trim.Trim.{LeftIsSpelled, TrimsWorld};

use crate::program_trim::answers::{ProgramTrim, TrimFault};
use crate::program_trim::planning::plan_of;
use crate::program_trim::program::Program;
use crate::program_trim::writing::{file_of, list_of};
use bad_items::mark_flaws::flaw::Flaw;
use descriptor_file::Root;
use il_base::Place;
use il_base::world_model::{AsmRec, BadKind, World};
use kept_marks::{kept_items, shown_types};
use marking::Marked;
use merge_plan::KeptItems;
use merge_plan::outcome::{Plan, PlanError};
use program_marks::needs_of;
use record_writer::WriteError;
use restrict::restrict;
use rules::link_rules::RowAt;
use std::alloc::Global;

/// The refusal of a flaw.
fn refusal_of(flaw: Flaw) -> TrimFault
    ensures { result ≡ refusal_by (place_of flaw) flaw.kind }
{
    let place = Place {
        asm: flaw.asm,
        token: flaw.token,
        offset: flaw.offset,
    };
    match flaw.kind {
        BadKind::Unresolved => TrimFault::Unresolved { place },
        BadKind::Outside(what) => TrimFault::Outside { place, what },
        BadKind::Over { which, found } => TrimFault::Limit { which, found },
    }
}

/// The trimmed file of a program, and the keep list of its kept items.
fn write_left(
    alloc: Global,
    program: &Program<'_>,
    marked: &Marked,
    kept: &KeptItems,
    left: &AsmRec,
) -> Result<ProgramTrim, TrimFault>
    requires linked { IsLinked program.now }
    requires good { IsGood program.now }
    requires followed { FollowsAll program.now }
    requires spelled { IsSpelled program.now }
    requires marked { HasMarks program.now marked.now }
    requires kept { Keeps program.now (kept_by kept.now) }
    requires unique { Collides program.now (kept_by kept.now) None }
    requires left { Leaves program.now (kept_by kept.now) left.now }
    ensures { Trims program.now result }
{
    let bytes = match file_of(alloc, left) {
        Err(WriteError::NoMemory) => return Err(TrimFault::NoMemory),
        Err(WriteError::Limit { which, found }) => return Err(TrimFault::Limit { which, found }),
        Ok(bytes) => bytes,
    };
    let kept = list_of(alloc, program.world, kept)?;
    Ok(ProgramTrim { bytes, kept })
}

/// The trimmed file of a program and its keep list, by the plan of the merge.
fn trim_kept(
    alloc: Global,
    program: &Program<'_>,
    marked: &Marked,
    kept: &KeptItems,
    plan: &Plan,
) -> Result<ProgramTrim, TrimFault>
    requires linked { IsLinked program.now }
    requires good { IsGood program.now }
    requires followed { FollowsAll program.now }
    requires spelled { IsSpelled program.now }
    requires marked { HasMarks program.now marked.now }
    requires kept { Keeps program.now (kept_by kept.now) }
    requires unique { Collides program.now (kept_by kept.now) None }
    requires names { Names program.now (kept_by kept.now) plan.now }
    ensures { Trims program.now result }
{
    match restrict(alloc, program.world, kept, plan) {
        Err(_) => Err(TrimFault::NoMemory),
        Ok(left) => write_left(alloc, program, marked, kept, &left),
    }
}

/// The trim of a program whose needed items have no flaw and whose operands marking follows, by its marked set.
fn trim_marked(
    alloc: Global,
    program: &Program<'_>,
    marked: &Marked,
) -> Result<ProgramTrim, TrimFault>
    requires linked { IsLinked program.now }
    requires good { IsGood program.now }
    requires followed { FollowsAll program.now }
    requires spelled { IsSpelled program.now }
    requires marked { HasMarks program.now marked.now }
    ensures { Trims program.now result }
{
    let kept = kept_items(alloc, program.world, marked)?;
    let shown = shown_types(alloc, program.world, marked)?;
    let recs = program.world.recs.as_slice();
    match plan_of(alloc, recs, &kept, &shown, program.internal) {
        Err(PlanError::NoMemory) => Err(TrimFault::NoMemory),
        Err(PlanError::Collision { first, second }) => Err(TrimFault::Collision { first, second }),
        Ok(plan) => trim_kept(alloc, program, marked, &kept, &plan),
    }
}

/// The trim of a program whose needed items have no flaw. `not_yet` is the file of the first operand that marking doesn't follow yet.
fn trim_good(
    alloc: Global,
    program: &Program<'_>,
    marked: &Marked,
    not_yet: Option<u32>,
) -> Result<ProgramTrim, TrimFault>
    requires linked { IsLinked program.now }
    requires good { IsGood program.now }
    requires spelled { IsSpelled program.now }
    requires marked { HasMarks program.now marked.now }
    requires first { HasFirstNotYet program.now not_yet }
    ensures { Trims program.now result }
{
    match not_yet {
        Some(file) => Err(TrimFault::NotYet { file }),
        None => trim_marked(alloc, program, marked),
    }
}

/// Trims the world that a link gave. The items that `rules/specs/mark_rules/Marking` derives from the entry method, by its row, and
/// from the elements of descriptors are kept, in one assembly with the name of the first input. With `internal` public types of the
/// other inputs become internal.
///
/// `Outside` and `Unresolved` come exactly where a needed item is outside of the profile or names nothing, with the first place by
/// assembly, token and offset. `NotYet` comes exactly where no needed item has such a flaw, and an operand of a needed method names a
/// member of reflection that does more than look at types: the file is that of the first such operand. `Collision` comes exactly where
/// neither is so, and a type that is public or shown has the full name of an earlier type of another assembly. It names the first such
/// type. `Limit` 5 and 7 come exactly where the trimmed file would have too many rows or bytes. `NoMemory` alone is free.
pub fn trim_world(
    alloc: Global,
    world: &World,
    entry: Option<RowAt>,
    roots: &[Root],
    internal: bool,
) -> Result<ProgramTrim, TrimFault>
    requires world { IsWorld world.now }
    requires there { RowsThere world.now.recs }
    requires spelled { LeftIsSpelled world.now.recs entry roots.now internal }
    ensures { TrimsWorld world.now.recs entry roots.now internal result }
{
    let needs = needs_of(alloc, world, entry, roots)?;
    let program = Program {
        world,
        entry,
        roots,
        internal,
    };
    match needs.flaw {
        Some(flaw) => Err(refusal_of(flaw)),
        None => trim_good(alloc, &program, &needs.marked, needs.not_yet),
    }
}
