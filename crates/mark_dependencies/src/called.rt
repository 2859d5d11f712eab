//! Members of a type that have a name, of all kinds.

ghost use Rattle.std.specs.Prelude.{◌≡◌, ◌++◌, map, IfOk, OnOk};
ghost use Rattle.std.specs.List.{filter};
ghost use Rattle.rules.specs.type_rules.Rows.{fields_of_type};
ghost use Rattle.mark_parts.specs.mark_facts.Kinds.{item_at};
ghost use Rattle.rules.specs.mark_rules.Attributes.{is_field_named, is_property_called};
ghost use Rattle.rules.specs.mark_rules.Dependencies.{others_called, members_called};
ghost use Rattle.mark_parts.specs.mark_tables.Assemblies.{all_of, IsMarker};
ghost use Rattle.mark_dependencies.specs.Names.{marks_item, fields_called, mapped_called};
ghost use Rattle.mark_dependencies.specs.Lookups.{recs_in, IsLookup};

use crate::lookup::Lookup;
use crate::methods::add_methods;
use crate::names::has_parameters;
use il_base::NoMemory;
use il_base::world_model::AsmRec;
use mark_items::mark_named::fields::is_field_named;
use mark_members::called_members::mapped::{events_called, properties_called};
use mark_parts::mark_facts::facts::Facts;
use mark_parts::mark_facts::kinds::Kind;
use mark_parts::mark_rows::members::{events_of_type, fields_of_type, properties_of_type};
use mark_parts::mark_tables::marker::Marker;
use rules::link_rules::RowAt;
use std::alloc::Global;

/// Marks the items of rows.
fn mark_rows(all: &[AsmRec], kind: Kind, rows: &[RowAt], facts: &mut Facts) -> Result<(), NoMemory>
    ensures { OnOk result (facts.new ≡ facts.old ++ map (marks_item all.now kind) rows.now) }
{
    for at in rows {
        facts.mark_row(all, kind, *at)?;
    }
    Ok(())
}

/// Those of these fields that have this name.
fn fields_named(
    alloc: Global,
    all: &[AsmRec],
    name: &[u8],
    rows: &[RowAt],
) -> Result<Vec<RowAt>, NoMemory>
    ensures { IfOk result (λ found. found.items ≡ filter (is_field_named all.now name.now) rows.now) }
{
    let mut found = Vec::new(alloc);
    for at in rows {
        if is_field_named(all, name, *at) {
            found.push(*at)?;
        }
    }
    Ok(found)
}

/// Marks the fields of a type that have this name.
fn add_fields(
    alloc: Global,
    marker: &Marker<'_>,
    name: &[u8],
    t: RowAt,
    facts: &mut Facts,
) -> Result<(), NoMemory>
    requires { IsMarker marker.now }
    ensures { OnOk result (facts.new ≡ facts.old ++ fields_called (all_of marker.now) name.now t) }
{
    let all = marker.tables.world.recs.as_slice();
    let rows = fields_of_type(alloc, marker, t)?;
    let found = fields_named(alloc, all, name, rows.as_slice())?;
    mark_rows(all, Kind::Field, found.as_slice(), facts)
}

/// Marks the properties and events of a type that have this name, without their accessors.
#[tactic(auto, using(crate::proofs::Lists::two_put))]
fn add_mapped(
    alloc: Global,
    marker: &Marker<'_>,
    name: &[u8],
    t: RowAt,
    facts: &mut Facts,
) -> Result<(), NoMemory>
    requires { IsMarker marker.now }
    ensures { OnOk result (facts.new ≡ facts.old ++ mapped_called (all_of marker.now) name.now t) }
{
    let all = marker.tables.world.recs.as_slice();
    let properties = properties_of_type(alloc, marker, t)?;
    let properties = properties_called(alloc, all, name, properties.as_slice())?;
    let events = events_of_type(alloc, marker, t)?;
    let events = events_called(alloc, all, name, events.as_slice())?;
    mark_rows(all, Kind::Property, properties.as_slice(), facts)?;
    mark_rows(all, Kind::Event, events.as_slice(), facts)
}

/// Marks the fields, properties and events of a type that have this name, without accessors.
#[tactic(auto, using(crate::proofs::Lists::others_put))]
fn add_others(
    alloc: Global,
    marker: &Marker<'_>,
    name: &[u8],
    t: RowAt,
    facts: &mut Facts,
) -> Result<(), NoMemory>
    requires { IsMarker marker.now }
    ensures { OnOk result (facts.new ≡ facts.old ++ others_called (all_of marker.now) name.now t) }
{
    add_fields(alloc, marker, name, t, facts)?;
    add_mapped(alloc, marker, name, t, facts)
}

/// Adds the members of a type itself that have this name, of all kinds; only methods go by a name with parameters.
#[tactic(auto, unfolding(rules::specs::mark_rules::Dependencies::members_called), using(crate::proofs::Lists::two_put, crate::proofs::Lists::none_more))]
pub(crate) fn add_called(
    alloc: Global,
    lookup: &Lookup<'_, '_>,
    name: &[u8],
    t: RowAt,
    facts: &mut Facts,
) -> Result<(), NoMemory>
    requires { IsLookup lookup.now }
    ensures { OnOk result (facts.new ≡ facts.old ++ members_called (recs_in lookup.now) name.now t) }
{
    add_methods(alloc, lookup, name, t, facts)?;
    let parameters = has_parameters(name);
    if parameters {
        return Ok(());
    }
    add_others(alloc, lookup.marker, name, t, facts)
}
