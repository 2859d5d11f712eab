//! Fields by kinds.

ghost use Rattle.std.specs.Prelude.{◌≡◌, ◌++◌, IfOk, OnOk};
ghost use Rattle.std.specs.List.{filter, flat_map};
ghost use Rattle.rules.specs.mark_rules.Members.{has_field_row, fields_by};
ghost use Rattle.mark_parts.specs.mark_tables.Assemblies.{all_of, IsMarker};
ghost use Rattle.mark_members.specs.mark_kinds.Kinds.{field_counts, fields_from};

use crate::mark_kinds::counts::{counts, pair};
use crate::mark_kinds::lineage::lineage;
use il_base::NoMemory;
use il_base::world_model::AsmRec;
use mark_parts::mark_rows::members::fields_of_type;
use mark_parts::mark_tables::marker::Marker;
use rules::link_rules::RowAt;
use rules::mark_rules::member_kinds;
use std::alloc::Global;
use virtual_calls::impls::same_row;

/// Whether a field is there, and counts.
fn field_counts_at(all: &[AsmRec], own: bool, two: u32, at: RowAt) -> bool
    ensures { result ≡ has_field_row all.now (field_counts own two) at }
{
    match all.get(at.asm as usize) {
        None => false,
        Some(rec) => match rec.field.get(at.row as usize) {
            None => false,
            Some(f) => counts(own, two, f.flags),
        },
    }
}

/// Adds those of these fields that count.
fn add_counted(
    all: &[AsmRec],
    own: bool,
    two: u32,
    rows: &[RowAt],
    found: &mut Vec<RowAt>,
) -> Result<(), NoMemory>
    ensures { OnOk result (found.new.items ≡ found.old.items ++ filter (has_field_row all.now (field_counts own two)) rows.now) }
{
    for at in rows {
        if field_counts_at(all, own, two, *at) {
            found.push(*at)?;
        }
    }
    Ok(())
}

/// Adds the fields of a type, or of one of its bases, that count.
fn add_fields_from(
    alloc: Global,
    marker: &Marker<'_>,
    t: RowAt,
    two: u32,
    c: RowAt,
    found: &mut Vec<RowAt>,
) -> Result<(), NoMemory>
    requires { IsMarker marker.now }
    ensures { OnOk result (found.new.items ≡ found.old.items ++ fields_from (all_of marker.now) t two c) }
{
    let rows = fields_of_type(alloc, marker, c)?;
    add_counted(
        marker.tables.world.recs.as_slice(),
        same_row(t, c),
        two,
        rows.as_slice(),
        found,
    )
}

/// The fields of a type and of these bases that count.
fn fields_along(
    alloc: Global,
    marker: &Marker<'_>,
    t: RowAt,
    two: u32,
    types: &[RowAt],
) -> Result<Vec<RowAt>, NoMemory>
    requires { IsMarker marker.now }
    ensures { IfOk result (λ rows. rows.items ≡ flat_map (fields_from (all_of marker.now) t two) types.now) }
{
    let mut found = Vec::new(alloc);
    for c in types {
        add_fields_from(alloc, marker, t, two, *c, &mut found)?;
    }
    Ok(found)
}

/// The fields of a type and its bases that kinds name.
#[tactic(auto, unfolding(rules::specs::mark_rules::Members::fields_by))]
pub fn fields_by(
    alloc: Global,
    marker: &Marker<'_>,
    kinds: u32,
    t: RowAt,
) -> Result<Vec<RowAt>, NoMemory>
    requires { IsMarker marker.now }
    ensures { IfOk result (λ rows. rows.items ≡ fields_by (all_of marker.now) kinds t) }
{
    let two = pair(
        kinds,
        member_kinds::PUBLIC_FIELDS,
        member_kinds::NON_PUBLIC_FIELDS,
    );
    let types = lineage(alloc, marker, t)?;
    let found = fields_along(alloc, marker, t, two, types.as_slice())?;
    Ok(found)
}
