//! The new names of kept types.

ghost use Rattle.std.specs.Prelude.{◌≡◌, ◌+◌, List, [], ◌∷◌, ◌++◌, length, map, IfOk, OnOk};
ghost use Rattle.resolver.specs.type_links.Index.{IsIndex};
ghost use Rattle.rules.specs.merge_rules.Names.{NewName, fresh_name, old_name};
ghost use Rattle.merge_plan.specs.Contests.{names_by};
ghost use Rattle.merge_plan.specs.OldNames.{types_of, AreOldNames};
ghost use Rattle.merge_plan.specs.Taken.{AreTaken};
ghost use Rattle.merge_plan.specs.Renamed.{new_name};

use crate::contests::Contest;
use crate::full_names::{OldName, full_name_of, is_top_level, namespace_of};
use crate::taken::{Taken, free_name, renamed};
use il_base::world_model::AsmRec;
use il_base::{NoMemory, Text};
use resolver::type_links::TypeIndex;
use rules::link_rules::RowAt;
use std::alloc::Global;

/// A type with its new name, without its namespace.
#[derive(Drop)]
pub(crate) struct Renamed {
    pub(crate) typ: RowAt,
    pub(crate) name: Text,
}

/// Adds the full name of a type that isn't nested.
fn add_old(
    alloc: Global,
    index: &TypeIndex<'_>,
    taken: &mut Taken,
    at: RowAt,
    name: &[u8],
) -> Result<(), NoMemory>
    requires index { IsIndex index.now }
    requires name { name.now ≡ old_name index.now.all.now at }
    ensures { OnOk result ((before : List RowAt) → AreTaken index.now.all.now before [] taken.old → AreTaken index.now.all.now (before ++ at ∷ []) [] taken.new) }
{
    if !is_top_level(index, at) {
        return Ok(());
    }
    taken.add(Vec::from_slice(alloc, name)?)?;
    Ok(())
}

/// The full names of kept types that aren't nested.
fn taken_by(alloc: Global, index: &TypeIndex<'_>, kept: &[OldName]) -> Result<Taken, NoMemory>
    requires index { IsIndex index.now }
    requires names { AreOldNames index.now.all.now kept.now }
    ensures { IfOk result (AreTaken index.now.all.now (types_of kept.now) []) }
{
    let mut taken = Taken::new(alloc);
    for old in kept {
        add_old(alloc, index, &mut taken, old.typ, old.full.as_slice())?;
    }
    Ok(taken)
}

/// The new name of a type. No more than `most` numbers are tried.
fn fresh_name(
    alloc: Global,
    recs: &[AsmRec],
    taken: &Taken,
    most: usize,
    at: RowAt,
) -> Result<Text, NoMemory>
    ensures { IfOk result (λ name. (kept : List RowAt) (names : List NewName) → AreTaken recs.now kept names taken.now → length kept + length names ≡ most → name ≡ fresh_name recs.now kept names at) }
{
    let name = renamed(alloc, recs, at)?;
    free_name(alloc, taken, namespace_of(recs, at), name.as_slice(), most)
}

/// Adds a type with its new name.
fn rename(
    alloc: Global,
    recs: &[AsmRec],
    kept: &[OldName],
    taken: &mut Taken,
    names: &mut Vec<Renamed>,
    at: RowAt,
) -> Result<(), NoMemory>
    requires { AreTaken recs.now (types_of kept.now) (map new_name names.old.items) taken.old }
    ensures names { OnOk result (map new_name names.new.items ≡ map new_name names.old.items ++ record { typ = at; name = fresh_name recs.now (types_of kept.now) (map new_name names.old.items) at } ∷ []) }
    ensures taken { OnOk result (AreTaken recs.now (types_of kept.now) (map new_name names.new.items) taken.new) }
{
    let Some(most) = kept.len().checked_add(names.len()) else {
        return Err(NoMemory);
    };
    let name = fresh_name(alloc, recs, taken, most, at)?;
    let full = full_name_of(alloc, namespace_of(recs, at), name.as_slice())?;
    taken.add(full)?;
    names.push(Renamed { typ: at, name })?;
    Ok(())
}

/// The types that get a new name, in order. `contests` has those of the kept types that need one.
pub(crate) fn new_names(
    alloc: Global,
    index: &TypeIndex<'_>,
    kept: &[OldName],
    contests: &[Contest],
) -> Result<Vec<Renamed>, NoMemory>
    requires index { IsIndex index.now }
    requires names { AreOldNames index.now.all.now kept.now }
    ensures { IfOk result (λ found. map new_name found.items ≡ names_by index.now.all.now (types_of kept.now) [] contests.now) }
{
    let mut taken = taken_by(alloc, index, kept)?;
    let mut found = Vec::new(alloc);
    for contest in contests {
        rename(
            alloc,
            index.all,
            kept,
            &mut taken,
            &mut found,
            contest.second,
        )?;
    }
    Ok(found)
}
