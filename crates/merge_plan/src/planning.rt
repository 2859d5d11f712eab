//! The plan of a merge.

ghost use Rattle.std.specs.Prelude.{◌≡◌, map, IfOk, MatchResult};
ghost use Rattle.resolver.specs.type_links.Index.{IsIndex};
ghost use Rattle.rules.specs.merge_rules.Numbers.{kept_types};
ghost use Rattle.merge_plan.specs.Kept.{kept_by};
ghost use Rattle.merge_plan.specs.Contests.{shown_by, collision_of};
ghost use Rattle.merge_plan.specs.Plans.{planned_by, collided, named, IsRefusal};
ghost use Rattle.merge_plan.specs.Renamed.{new_name};

use crate::contests::{Contest, collision, contests, type_of};
use crate::full_names::old_names;
use crate::kept::{KeptItems, Kind};
use crate::new_names::{Renamed, new_names};
use crate::outcome::{NewName, Plan, PlanError, Planned};
use crate::rows::kept_rows;
use il_base::world_model::AsmRec;
use il_base::{Bits, NoMemory, Seq};
use resolver::type_links::TypeIndex;
use rules::link_rules::RowAt;
use std::alloc::Global;

/// The collision of two types by their ids.
fn collided(recs: &[AsmRec], contest: Contest) -> Result<Planned, NoMemory>
    ensures { IfOk result (λ p. p ≡ collided recs.now (collision_of contest)) }
{
    let first = type_of(recs, contest.first)?;
    let second = type_of(recs, contest.second)?;
    Ok(Planned::Collision(first, second))
}

/// A type with its new name, by its id.
fn named(alloc: Global, recs: &[AsmRec], renamed: &Renamed) -> Result<NewName, NoMemory>
    ensures { IfOk result (λ n. n ≡ named recs.now (new_name renamed.now)) }
{
    let typ = type_of(recs, renamed.typ)?;
    let name = Seq::from_slice(alloc, renamed.name.as_slice())?;
    Ok(NewName { typ, name })
}

fn all_named(alloc: Global, recs: &[AsmRec], renamed: &[Renamed]) -> Result<Seq<NewName>, NoMemory>
    ensures { IfOk result (λ names. names ≡ map (named recs.now) (map new_name renamed.now)) }
{
    let mut names = Seq::new(alloc);
    for one in renamed {
        let name = named(alloc, recs, one)?;
        names.push(name)?;
    }
    Ok(names)
}

/// The plan of these kept types.
fn try_plan(
    alloc: Global,
    index: &TypeIndex<'_>,
    kept: &[RowAt],
    shown: &Bits,
    internal: bool,
) -> Result<Planned, NoMemory>
    requires { IsIndex index.now }
    ensures { IfOk result (λ p. p ≡ planned_by internal index.now.all.now (shown_by shown.now) kept.now) }
{
    let old = old_names(alloc, index.all, kept)?;
    let contests = contests(alloc, index, old.as_slice())?;
    let found = collision(index.all, shown, contests.as_slice())?;
    match found {
        Some(contest) => {
            let collision = collided(index.all, contest)?;
            Ok(collision)
        }
        None => {
            let renamed = new_names(alloc, index, old.as_slice(), contests.as_slice())?;
            let names = all_named(alloc, index.all, renamed.as_slice())?;
            Ok(Planned::Plan(Plan { names, internal }))
        }
    }
}

/// The plan of a merge of the assemblies of a world, of which the last is the core library: the new names of kept types.
/// `shown` has a flag for each type whose name a running program can see. The answer is a collision for the first kept type
/// that needs a new name and is public or shown, with the first kept type of another assembly of its full name.
pub fn plan(
    alloc: Global,
    index: &TypeIndex<'_>,
    kept: &KeptItems,
    shown: &Bits,
    internal: bool,
) -> Result<Plan, PlanError>
    requires { IsIndex index.now }
    ensures { let wanted = planned_by internal index.now.all.now (shown_by shown.now) (kept_types index.now.all.now (kept_by kept.now)) in
        MatchResult result (λ p. wanted ≡ Planned.Plan p) (IsRefusal wanted) }
{
    let Ok(rows) = kept_rows(alloc, index.all, Kind::Types, kept) else {
        return Err(PlanError::NoMemory);
    };
    match try_plan(alloc, index, rows.as_slice(), shown, internal) {
        Err(_) => Err(PlanError::NoMemory),
        Ok(Planned::Plan(plan)) => Ok(plan),
        Ok(Planned::Collision(first, second)) => Err(PlanError::Collision { first, second }),
    }
}
