//! A type with all types nested in it (II.22.32). The types that are still to be visited stand in a list, so there is no recursion.

ghost use Rattle.std.specs.Prelude.{◌≡◌, ◌++◌, ◌+◌, OnOk};
ghost use Rattle.rules.specs.mark_rules.Members.{whole_within, whole_nested};
ghost use Rattle.mark_parts.specs.mark_tables.Assemblies.{all_of, IsMarker};
ghost use Rattle.descriptor_texts.specs.nested_types.Nested.{AreNested};
ghost use Rattle.mark_members.specs.Levels.{pushed, left_items, size_within, total};

use crate::items::add_whole;
use descriptor_texts::nested_types::nested::NestedTypes;
use il_base::{Item, NoMemory, Seq};
use mark_parts::mark_tables::marker::Marker;
use rules::link_rules::RowAt;
use std::alloc::Global;
use type_tables::member_search::counted::sum;

/// A type that is still to be visited, with the number of levels of nested types to visit, its own first.
#[derive(Clone, Copy)]
struct Level {
    at: RowAt,
    levels: u32,
}

/// Adds types to those that are still to be visited, the last one first.
fn push_levels(rows: Seq<RowAt>, levels: u32, waiting: &mut Seq<Level>) -> Result<(), NoMemory>
    ensures { OnOk result (waiting.new ≡ waiting.old ++ pushed levels rows) }
{
    let mut left = rows;
    loop {
        match left.pop() {
            None => return Ok(()),
            Some(at) => waiting.push(Level { at, levels })?,
        }
    }
}

/// Adds all that a type holds, and adds the types nested in it to those that are still to be visited.
#[tactic(auto, using(crate::proofs::Waiting::no_level, crate::proofs::Waiting::no_level_total))]
fn add_level(
    alloc: Global,
    marker: &Marker<'_>,
    nested: &NestedTypes,
    level: Level,
    waiting: &mut Seq<Level>,
    items: &mut Vec<Item>,
) -> Result<(), NoMemory>
    requires marker { IsMarker marker.now }
    requires nested { AreNested (all_of marker.now) nested.now }
    ensures items { OnOk result (items.new.items ++ left_items (all_of marker.now) waiting.new ≡ items.old.items ++ (whole_within (all_of marker.now) level.levels level.at ++ left_items (all_of marker.now) waiting.old)) }
    ensures total { OnOk result (total (all_of marker.now) waiting.new + 1 ≡ total (all_of marker.now) waiting.old + size_within (all_of marker.now) level.levels level.at) }
{
    if level.levels == 0 {
        return Ok(());
    }
    let rows = nested.nested_in(alloc, marker, level.at)?;
    add_whole(alloc, marker, level.at, items)?;
    push_levels(Seq::from_vec(rows), level.levels - 1, waiting)?;
    Ok(())
}

/// Adds all that types hold, with all types nested in them: those that are still to be visited, the last one first.
fn add_levels(
    alloc: Global,
    marker: &Marker<'_>,
    nested: &NestedTypes,
    waiting: Seq<Level>,
    items: &mut Vec<Item>,
) -> Result<(), NoMemory>
    requires marker { IsMarker marker.now }
    requires nested { AreNested (all_of marker.now) nested.now }
    ensures { OnOk result (items.new.items ≡ items.old.items ++ left_items (all_of marker.now) waiting) }
{
    let mut left = waiting;
    loop {
        match left.pop() {
            None => return Ok(()),
            Some(level) => add_level(alloc, marker, nested, level, &mut left, items)?,
        }
    }
}

/// Adds all that a type holds, with all types nested in it.
pub(crate) fn add_whole_nested(
    alloc: Global,
    marker: &Marker<'_>,
    nested: &NestedTypes,
    at: RowAt,
    items: &mut Vec<Item>,
) -> Result<(), NoMemory>
    requires marker { IsMarker marker.now }
    requires nested { AreNested (all_of marker.now) nested.now }
    ensures { OnOk result (items.new.items ≡ items.old.items ++ whole_nested (all_of marker.now) at) }
{
    let Some(here) = marker.assembly_at(at.asm) else {
        return Ok(());
    };
    let levels = sum(1, here.scope.rec.type_def.len())?;
    let mut waiting = Seq::new(alloc);
    waiting.push(Level { at, levels })?;
    add_levels(alloc, marker, nested, waiting, items)?;
    Ok(())
}
