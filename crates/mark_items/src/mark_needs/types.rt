//! The needs of a marked type, field or interface row (II.22.37, II.22.15, II.22.23).

ghost use Rattle.std.specs.Prelude.{◌≡◌, ◌++◌, ◌∷◌, [], map, OnOk};
ghost use Rattle.std.specs.List.{flat_map, filter};
ghost use Rattle.rules.specs.link_rules.Types.{at_row, encloser};
ghost use Rattle.rules.specs.link_rules.Cycles.{listed};
ghost use Rattle.rules.specs.type_rules.Rows.{is_instance_field, owner_of_field, rec_at};
ghost use Rattle.rules.specs.mark_rules.Places.{marks_type, marks_field};
ghost use Rattle.rules.specs.mark_rules.Types.{encloser_of, type_needs, laid_fields, layout_needs, field_needs, impl_needs};
ghost use Rattle.mark_parts.specs.mark_tables.Assemblies.{all_of, IsMarker};
ghost use Rattle.mark_items.specs.mark_needs.Owners.{field_owner_facts, instance_fact, laid, value_needs};

use il_base::NoMemory;
use il_base::world_model::AsmRec;
use mark_parts::items::{add_parts_of_field, add_parts_of_impl, add_parts_of_type};
use mark_parts::mark_facts::facts::Facts;
use mark_parts::mark_facts::kinds::Kind;
use mark_parts::mark_facts::parts::Parts;
use mark_parts::mark_rows::members::fields_of_type;
use mark_parts::mark_rows::rows::{is_enum, is_instance_field};
use mark_parts::mark_tables::marker::Marker;
use rules::link_rules::RowAt;
use std::alloc::Global;
use type_tables::subtypes::references::is_value_type;

/// Marks the type in a row of an assembly, where there is one.
pub(crate) fn mark_owner(
    all: &[AsmRec],
    asm: u32,
    owner: Option<u32>,
    facts: &mut Facts,
) -> Result<(), NoMemory>
    ensures { OnOk result (facts.new ≡ facts.old ++ map (λ t. marks_type all.now (at_row asm t)) (listed owner)) }
{
    match owner {
        Some(row) => facts.mark_row(all, Kind::Type, RowAt { asm, row }),
        None => Ok(()),
    }
}

/// Marks the encloser of a type.
fn add_encloser(marker: &Marker<'_>, at: RowAt, facts: &mut Facts) -> Result<(), NoMemory>
    requires { IsMarker marker.now }
    ensures { OnOk result (facts.new ≡ facts.old ++ flat_map (encloser_of (all_of marker.now) at) (listed (rec_at (all_of marker.now) at))) }
{
    let Some(asm) = marker.assembly_at(at.asm) else {
        return Ok(());
    };
    let around = asm.encloser(at.row)?;
    mark_owner(marker.tables.world.recs.as_slice(), at.asm, around, facts)
}

/// Adds the needs of a marked type: its encloser, what its Extends names, and the constraints of its parameters.
#[tactic(auto, unfolding(rules::specs::mark_rules::Types::type_needs), using(crate::proofs::lemmas::mark_needs::Lists::two_put))]
pub fn add_type_needs(
    alloc: Global,
    marker: &Marker<'_>,
    at: RowAt,
    facts: &mut Facts,
) -> Result<(), NoMemory>
    requires { IsMarker marker.now }
    ensures { OnOk result (facts.new ≡ facts.old ++ type_needs (all_of marker.now) at) }
{
    let mut parts = Parts::new(alloc);
    add_parts_of_type(alloc, marker, at, &mut parts)?;
    add_encloser(marker, at, facts)?;
    parts.mark(facts)
}

/// Marks all of these fields.
fn mark_all(all: &[AsmRec], rows: &[RowAt], facts: &mut Facts) -> Result<(), NoMemory>
    ensures { OnOk result (facts.new ≡ facts.old ++ map (marks_field all.now) rows.now) }
{
    for at in rows {
        facts.mark_row(all, Kind::Field, *at)?;
    }
    Ok(())
}

/// Marks a field that is an instance's.
fn mark_instance(all: &[AsmRec], at: RowAt, facts: &mut Facts) -> Result<(), NoMemory>
    ensures { OnOk result (facts.new ≡ facts.old ++ instance_fact all.now at) }
{
    let is_instance = is_instance_field(all, at);
    if is_instance {
        return facts.mark_row(all, Kind::Field, at);
    }
    Ok(())
}

/// Marks those of these fields that are instances' ones.
fn mark_instances(all: &[AsmRec], rows: &[RowAt], facts: &mut Facts) -> Result<(), NoMemory>
    ensures { OnOk result (facts.new ≡ facts.old ++ flat_map (instance_fact all.now) rows.now) }
{
    for at in rows {
        mark_instance(all, *at, facts)?;
    }
    Ok(())
}

/// Marks all of these fields, or those that are instances' ones.
fn mark_fields(
    all: &[AsmRec],
    with_static: bool,
    rows: &[RowAt],
    facts: &mut Facts,
) -> Result<(), NoMemory>
    ensures { OnOk result (facts.new ≡ facts.old ++ map (marks_field all.now) (laid with_static all.now rows.now)) }
{
    if with_static {
        return mark_all(all, rows, facts);
    }
    mark_instances(all, rows, facts)?;
    Ok(())
}

/// Makes a value type instantiated, and marks its instance fields, or all fields of an enum.
#[tactic(auto, using(crate::proofs::lemmas::mark_needs::Lists::first_then))]
fn add_layout(
    alloc: Global,
    marker: &Marker<'_>,
    at: RowAt,
    facts: &mut Facts,
) -> Result<(), NoMemory>
    requires { IsMarker marker.now }
    ensures { OnOk result (facts.new ≡ facts.old ++ value_needs (all_of marker.now) at) }
{
    let all = marker.tables.world.recs.as_slice();
    let with_static = is_enum(marker, at)?;
    let rows = fields_of_type(alloc, marker, at)?;
    facts.instantiate_row(all, at)?;
    mark_fields(all, with_static, rows.as_slice(), facts)
}

/// Adds the needs of the layout of a marked value type (II.13, II.14.3).
#[tactic(auto, unfolding(rules::specs::mark_rules::Types::layout_needs))]
pub fn add_layout_needs(
    alloc: Global,
    marker: &Marker<'_>,
    at: RowAt,
    facts: &mut Facts,
) -> Result<(), NoMemory>
    requires { IsMarker marker.now }
    ensures { OnOk result (facts.new ≡ facts.old ++ layout_needs (all_of marker.now) at) }
{
    let is_value = is_value_type(&marker.tables, at)?;
    if is_value {
        return add_layout(alloc, marker, at, facts);
    }
    Ok(())
}

/// Marks the type of a field.
fn add_field_owner(marker: &Marker<'_>, at: RowAt, facts: &mut Facts) -> Result<(), NoMemory>
    requires { IsMarker marker.now }
    ensures { OnOk result (facts.new ≡ facts.old ++ field_owner_facts (all_of marker.now) at) }
{
    let Some(asm) = marker.assembly_at(at.asm) else {
        return Ok(());
    };
    let owner = asm.owner_of_field(at.row)?;
    mark_owner(marker.tables.world.recs.as_slice(), at.asm, owner, facts)
}

/// Adds the needs of a marked field: its type, and what its signature names.
#[tactic(auto, unfolding(rules::specs::mark_rules::Types::field_needs), using(crate::proofs::lemmas::mark_needs::Lists::two_put))]
pub fn add_field_needs(
    alloc: Global,
    marker: &Marker<'_>,
    at: RowAt,
    facts: &mut Facts,
) -> Result<(), NoMemory>
    requires { IsMarker marker.now }
    ensures { OnOk result (facts.new ≡ facts.old ++ field_needs (all_of marker.now) at) }
{
    let mut parts = Parts::new(alloc);
    add_parts_of_field(alloc, marker, at, &mut parts)?;
    add_field_owner(marker, at, facts)?;
    parts.mark(facts)
}

/// Adds the needs of a marked interface row: the interface that it names.
#[tactic(auto, unfolding(rules::specs::mark_rules::Types::impl_needs))]
pub fn add_impl_needs(
    alloc: Global,
    marker: &Marker<'_>,
    at: RowAt,
    facts: &mut Facts,
) -> Result<(), NoMemory>
    requires { IsMarker marker.now }
    ensures { OnOk result (facts.new ≡ facts.old ++ impl_needs (all_of marker.now) at) }
{
    let mut parts = Parts::new(alloc);
    add_parts_of_impl(alloc, marker, at, &mut parts)?;
    parts.mark(facts)
}
