//! Nested types by kinds.

ghost use Rattle.std.specs.Prelude.{◌≡◌, ◌++◌, IfOk, OnOk};
ghost use Rattle.std.specs.List.{filter, flat_map};
ghost use Rattle.il_base.specs.Flags.{access_of};
ghost use Rattle.rules.specs.mark_rules.Members.{is_nested_public, nested_counts, whole_nested, nested_by};
ghost use Rattle.mark_parts.specs.mark_tables.Assemblies.{all_of, IsMarker};
ghost use Rattle.descriptor_texts.specs.nested_types.Nested.{AreNested};

use crate::levels::add_whole_nested;
use descriptor_texts::nested_types::nested::NestedTypes;
use il_base::world_model::AsmRec;
use il_base::{Item, NoMemory, has_type_flag, type_flags};
use mark_parts::mark_tables::marker::Marker;
use rules::link_rules::RowAt;
use rules::mark_rules::member_kinds;
use std::alloc::Global;

/// The visibility of a type: its low three flags (II.23.1.15).
fn visibility(bits: u32) -> u32
    ensures { result ≡ access_of bits }
{
    bits % 8
}

/// Whether a type is there, and nested and public (II.23.1.15).
fn is_nested_public(all: &[AsmRec], at: RowAt) -> bool
    ensures { result ≡ is_nested_public all.now at }
{
    match all.get(at.asm as usize) {
        None => false,
        Some(rec) => match rec.type_def.get(at.row as usize) {
            None => false,
            Some(t) => visibility(t.flags) == type_flags::NESTED_PUBLIC,
        },
    }
}

/// Whether kinds name a nested type.
fn nested_counts(all: &[AsmRec], kinds: u32, at: RowAt) -> bool
    ensures { result ≡ nested_counts all.now kinds at }
{
    if is_nested_public(all, at) {
        return has_type_flag(kinds, member_kinds::PUBLIC_NESTED_TYPES);
    }
    has_type_flag(kinds, member_kinds::NON_PUBLIC_NESTED_TYPES)
}

/// Those of these nested types that kinds name.
fn counted(
    alloc: Global,
    all: &[AsmRec],
    kinds: u32,
    rows: &[RowAt],
) -> Result<Vec<RowAt>, NoMemory>
    ensures { IfOk result (λ found. found.items ≡ filter (nested_counts all.now kinds) rows.now) }
{
    let mut found = Vec::new(alloc);
    for at in rows {
        if nested_counts(all, kinds, *at) {
            found.push(*at)?;
        }
    }
    Ok(found)
}

/// Adds all that types hold, with all types nested in them.
fn add_all_nested(
    alloc: Global,
    marker: &Marker<'_>,
    nested: &NestedTypes,
    rows: &[RowAt],
    items: &mut Vec<Item>,
) -> Result<(), NoMemory>
    requires marker { IsMarker marker.now }
    requires nested { AreNested (all_of marker.now) nested.now }
    ensures { OnOk result (items.new.items ≡ items.old.items ++ flat_map (whole_nested (all_of marker.now)) rows.now) }
{
    for at in rows {
        add_whole_nested(alloc, marker, nested, *at, items)?;
    }
    Ok(())
}

/// Adds the nested types of a type that kinds name, with all that they hold.
#[tactic(auto, unfolding(rules::specs::mark_rules::Members::nested_by))]
pub(crate) fn add_nested_by(
    alloc: Global,
    marker: &Marker<'_>,
    nested: &NestedTypes,
    kinds: u32,
    t: RowAt,
    items: &mut Vec<Item>,
) -> Result<(), NoMemory>
    requires marker { IsMarker marker.now }
    requires nested { AreNested (all_of marker.now) nested.now }
    ensures { OnOk result (items.new.items ≡ items.old.items ++ nested_by (all_of marker.now) kinds t) }
{
    let rows = nested.nested_in(alloc, marker, t)?;
    let found = counted(
        alloc,
        marker.tables.world.recs.as_slice(),
        kinds,
        rows.as_slice(),
    )?;
    add_all_nested(alloc, marker, nested, found.as_slice(), items)
}
