//! All members of a type, and those that the attribute `preserve` of a descriptor names.

ghost use Rattle.std.specs.Prelude.{◌≡◌, ◌++◌, map, OnOk};
ghost use Rattle.rules.specs.mark_rules.Places.{marks_field};
ghost use Rattle.rules.specs.mark_rules.Roots.{all_fields, all_members, preserved};
ghost use Rattle.mark_parts.specs.mark_tables.Assemblies.{all_of, IsMarker};

use crate::mark_whole::mapped::add_mapped;
use crate::mark_whole::methods::add_methods;
use descriptor_file::preserve;
use il_base::NoMemory;
use il_base::world_model::AsmRec;
use mark_parts::mark_facts::facts::Facts;
use mark_parts::mark_facts::kinds::Kind;
use mark_parts::mark_rows::members::fields_of_type;
use mark_parts::mark_tables::marker::Marker;
use rules::link_rules::RowAt;
use std::alloc::Global;

/// Marks all of these fields.
pub fn mark_fields(all: &[AsmRec], rows: &[RowAt], facts: &mut Facts) -> Result<(), NoMemory>
    ensures { OnOk result (facts.new ≡ facts.old ++ map (marks_field all.now) rows.now) }
{
    for at in rows {
        facts.mark_row(all, Kind::Field, *at)?;
    }
    Ok(())
}

/// Adds all fields of a type.
pub fn add_fields(
    alloc: Global,
    marker: &Marker<'_>,
    t: RowAt,
    facts: &mut Facts,
) -> Result<(), NoMemory>
    requires { IsMarker marker.now }
    ensures { OnOk result (facts.new ≡ facts.old ++ all_fields (all_of marker.now) t) }
{
    let rows = fields_of_type(alloc, marker, t)?;
    mark_fields(marker.tables.world.recs.as_slice(), rows.as_slice(), facts)
}

/// Adds all methods, fields, properties and events of a type; no nested types and no interface rows.
#[tactic(auto, using(crate::proofs::lemmas::mark_whole::Lists::two_put))]
pub fn add_members(
    alloc: Global,
    marker: &Marker<'_>,
    t: RowAt,
    facts: &mut Facts,
) -> Result<(), NoMemory>
    requires { IsMarker marker.now }
    ensures { OnOk result (facts.new ≡ facts.old ++ all_members (all_of marker.now) t) }
{
    add_methods(alloc, marker, t, facts)?;
    add_fields(alloc, marker, t, facts)?;
    add_mapped(alloc, marker, t, facts)
}

/// Adds the members of a type that a value of `preserve` names.
#[tactic(auto, using(crate::proofs::lemmas::mark_whole::Lists::none_more))]
pub fn add_preserved(
    alloc: Global,
    marker: &Marker<'_>,
    t: RowAt,
    kind: u8,
    facts: &mut Facts,
) -> Result<(), NoMemory>
    requires { IsMarker marker.now }
    ensures { OnOk result (facts.new ≡ facts.old ++ preserved (all_of marker.now) t kind) }
{
    if kind == preserve::FIELDS {
        return add_fields(alloc, marker, t, facts);
    }
    if kind == preserve::METHODS {
        return add_methods(alloc, marker, t, facts);
    }
    if kind == preserve::ALL {
        return add_members(alloc, marker, t, facts);
    }
    Ok(())
}
