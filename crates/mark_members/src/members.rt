//! All kinds of members.

ghost use Rattle.std.specs.Prelude.{◌≡◌, ◌++◌, OnOk};
ghost use Rattle.rules.specs.mark_rules.Members.{members_by};
ghost use Rattle.mark_parts.specs.mark_tables.Assemblies.{all_of, IsMarker};
ghost use Rattle.descriptor_texts.specs.nested_types.Nested.{AreNested};
ghost use Rattle.mark_members.specs.Items.{methods_and_fields, mapped_items, other_items};

use crate::items::{add_events, add_items, add_properties};
use crate::mark_kinds::fields::fields_by;
use crate::mark_kinds::impls::impls_by;
use crate::mark_kinds::mapped::{events_by, properties_by};
use crate::mark_kinds::methods::{constructors_by, methods_by};
use crate::nested::add_nested_by;
use descriptor_texts::nested_types::nested::NestedTypes;
use il_base::{Item, NoMemory};
use mark_parts::mark_facts::kinds::Kind;
use mark_parts::mark_tables::marker::Marker;
use rules::link_rules::RowAt;
use std::alloc::Global;

/// Adds the constructors, methods and fields that kinds name.
#[tactic(auto, using(crate::proofs::Lists::methods_put))]
fn add_methods_and_fields(
    alloc: Global,
    marker: &Marker<'_>,
    kinds: u32,
    t: RowAt,
    items: &mut Vec<Item>,
) -> Result<(), NoMemory>
    requires { IsMarker marker.now }
    ensures { OnOk result (items.new.items ≡ items.old.items ++ methods_and_fields (all_of marker.now) kinds t) }
{
    let all = marker.tables.world.recs.as_slice();
    let constructors = constructors_by(alloc, marker, kinds, t)?;
    let methods = methods_by(alloc, marker, kinds, t)?;
    let fields = fields_by(alloc, marker, kinds, t)?;
    add_items(all, Kind::Method, constructors.as_slice(), items)?;
    add_items(all, Kind::Method, methods.as_slice(), items)?;
    add_items(all, Kind::Field, fields.as_slice(), items)
}

/// Adds the properties and events that kinds name, with their accessors.
#[tactic(auto, using(crate::proofs::Lists::two_put))]
fn add_mapped(
    alloc: Global,
    marker: &Marker<'_>,
    kinds: u32,
    t: RowAt,
    items: &mut Vec<Item>,
) -> Result<(), NoMemory>
    requires { IsMarker marker.now }
    ensures { OnOk result (items.new.items ≡ items.old.items ++ mapped_items (all_of marker.now) kinds t) }
{
    let properties = properties_by(alloc, marker, kinds, t)?;
    let events = events_by(alloc, marker, kinds, t)?;
    add_properties(alloc, marker, properties.as_slice(), items)?;
    add_events(alloc, marker, events.as_slice(), items)
}

/// Adds the nested types and the interface rows that kinds name.
#[tactic(auto, using(crate::proofs::Lists::two_put))]
fn add_others(
    alloc: Global,
    marker: &Marker<'_>,
    nested: &NestedTypes,
    kinds: u32,
    t: RowAt,
    items: &mut Vec<Item>,
) -> Result<(), NoMemory>
    requires marker { IsMarker marker.now }
    requires nested { AreNested (all_of marker.now) nested.now }
    ensures { OnOk result (items.new.items ≡ items.old.items ++ other_items (all_of marker.now) kinds t) }
{
    let impls = impls_by(alloc, marker, kinds, t)?;
    add_nested_by(alloc, marker, nested, kinds, t, items)?;
    add_items(
        marker.tables.world.recs.as_slice(),
        Kind::Interface,
        impls.as_slice(),
        items,
    )
}

/// Adds the members of a type that kinds name. They are constructors of the type itself; methods, fields, properties and events of
/// the type and its bases, the last two with all accessors; nested types with all that they hold; and interface rows.
#[tactic(auto, unfolding(rules::specs::mark_rules::Members::members_by), using(crate::proofs::Lists::members_put))]
pub fn add_members_by(
    alloc: Global,
    marker: &Marker<'_>,
    nested: &NestedTypes,
    kinds: u32,
    t: RowAt,
    items: &mut Vec<Item>,
) -> Result<(), NoMemory>
    requires marker { IsMarker marker.now }
    requires nested { AreNested (all_of marker.now) nested.now }
    ensures { OnOk result (items.new.items ≡ items.old.items ++ members_by (all_of marker.now) kinds t) }
{
    add_methods_and_fields(alloc, marker, kinds, t, items)?;
    add_mapped(alloc, marker, kinds, t, items)?;
    add_others(alloc, marker, nested, kinds, t, items)
}
