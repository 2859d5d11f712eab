//! Contests: kept types with the full name of an earlier kept type of another assembly.

ghost use Rattle.std.specs.Prelude.{◌≡◌, List, [], ◌∷◌, ◌++◌, ◌||◌, IfOk, OnOk};
ghost use Rattle.std.specs.Option.{option_map};
ghost use Rattle.resolver.specs.type_links.Index.{IsIndex};
ghost use Rattle.il_base.specs.world_model.Worlds.{type_id};
ghost use Rattle.rules.specs.merge_rules.Names.{is_public, old_name};
ghost use Rattle.merge_plan.specs.OldNames.{types_of, AreOldNames};
ghost use Rattle.merge_plan.specs.Rivals.{AreNamed};
ghost use Rattle.merge_plan.specs.Kept.{has_flag};
ghost use Rattle.merge_plan.specs.Contests.{contests_of, contests_from, collision_of, collision_by, shown_by};

use crate::full_names::{OldName, is_public, is_top_level};
use crate::rivals::{put_type, rival_named};
use il_base::world_model::{AsmRec, type_id};
use il_base::{Bits, NoMemory, Seq, TypeId};
use resolver::type_links::TypeIndex;
use rules::link_rules::RowAt;
use std::alloc::Global;
use std::collections::HashMap;

/// A type with the full name of an earlier type of another assembly.
#[derive(Clone, Copy, Debug, PartialEq, Eq)]
pub(crate) struct Contest {
    /// The first such type.
    pub(crate) first: RowAt,
    pub(crate) second: RowAt,
}

/// Adds a type that has a rival, and the type under its name.
fn meet_type<'a>(
    alloc: Global,
    index: &TypeIndex<'_>,
    earlier: &mut HashMap<&'a [u8], Seq<RowAt>>,
    found: &mut Vec<Contest>,
    name: &'a [u8],
    at: RowAt,
) -> Result<(), NoMemory>
    requires index { IsIndex index.now }
    requires name { name.now ≡ old_name index.now.all.now at }
    ensures named { OnOk result ((before : List RowAt) → AreNamed index.now.all.now before earlier.old → AreNamed index.now.all.now (before ++ at ∷ []) earlier.new) }
    ensures found { OnOk result ((before : List RowAt) → AreNamed index.now.all.now before earlier.old → found.new.items ≡ found.old.items ++ contests_of index.now.all.now before at) }
{
    if !is_top_level(index, at) {
        return Ok(());
    }
    match rival_named(earlier, name, at.asm) {
        None => {
            put_type(alloc, earlier, name, at)?;
            Ok(())
        }
        Some(first) => {
            found.push(Contest { first, second: at })?;
            put_type(alloc, earlier, name, at)?;
            Ok(())
        }
    }
}

/// The contests among the kept types, in order.
pub(crate) fn contests(
    alloc: Global,
    index: &TypeIndex<'_>,
    kept: &[OldName],
) -> Result<Vec<Contest>, NoMemory>
    requires index { IsIndex index.now }
    requires names { AreOldNames index.now.all.now kept.now }
    ensures { IfOk result (λ found. found.items ≡ contests_from index.now.all.now [] (types_of kept.now)) }
{
    let mut earlier: HashMap<&[u8], Seq<RowAt>> = HashMap::new(alloc);
    let mut found = Vec::new(alloc);
    for old in kept {
        let name = old.full.as_slice();
        meet_type(alloc, index, &mut earlier, &mut found, name, old.typ)?;
    }
    Ok(found)
}

/// Whether a type can't be renamed: it is public or shown.
fn is_refused(recs: &[AsmRec], shown: &Bits, at: RowAt) -> Result<bool, NoMemory>
    ensures { IfOk result (λ b. b ≡ (is_public recs.now at || has_flag shown.now (type_id recs.now at.asm at.row).0)) }
{
    if is_public(recs, at) {
        return Ok(true);
    }
    let id = type_of(recs, at)?;
    Ok(shown.has(id.0))
}

/// The id of a type.
pub(crate) fn type_of(recs: &[AsmRec], at: RowAt) -> Result<TypeId, NoMemory>
    ensures { IfOk result (λ id. id ≡ type_id recs.now at.asm at.row) }
{
    match type_id(recs, at.asm as usize, at.row as usize) {
        Some(id) => Ok(id),
        None => Err(NoMemory),
    }
}

/// The first contest whose type needs a new name and can't have one.
pub(crate) fn collision(
    recs: &[AsmRec],
    shown: &Bits,
    contests: &[Contest],
) -> Result<Option<Contest>, NoMemory>
    ensures { IfOk result (λ c. option_map collision_of c ≡ collision_by recs.now (shown_by shown.now) contests.now) }
{
    for contest in contests {
        let refused = is_refused(recs, shown, contest.second)?;
        if refused {
            return Ok(Some(*contest));
        }
    }
    Ok(None)
}
