//! The types that an item shows which reflection may reach: the one that has it, and those in its signature.

ghost use Rattle.std.specs.Prelude.{◌≡◌, ◌++◌, map, OnOk};
ghost use Rattle.std.specs.Option.{option_map};
ghost use Rattle.il_base.specs.world_model.Worlds.{type_id};
ghost use Rattle.rules.specs.link_rules.Types.{encloser};
ghost use Rattle.rules.specs.link_rules.Cycles.{listed};
ghost use Rattle.rules.specs.type_rules.Slots.{type_of_method};
ghost use Rattle.rules.specs.type_rules.Rows.{owner_of_field};
ghost use Rattle.rules.specs.mark_rules.Facts.Fact.{shown};
ghost use Rattle.rules.specs.mark_rules.Types.{parts_of_field};
ghost use Rattle.rules.specs.mark_rules.Properties.{property_owner, event_owner, parts_of_property};
ghost use Rattle.rules.specs.mark_rules.ReflectedShown.{id_of, owner_of, types_of_named, types_of_known, types_of_parts, types_of_signature, shown_with, reflected_shows};
ghost use Rattle.rules.specs.site_rules.Items.{signature_parts, owning, class_of_impl};
ghost use Rattle.mark_parts.specs.mark_facts.Told.{named_told, part_told};
ghost use Rattle.mark_parts.specs.mark_tables.Assemblies.{all_of, IsMarker};

use crate::mark_calls::found::row_class;
use il_base::world_model::{AsmRec, Known, token_of};
use il_base::{Item, NoMemory, table};
use mark_parts::items::{add_parts_of_field, add_parts_of_property};
use mark_parts::mark_facts::exprs::{Said, say_types};
use mark_parts::mark_facts::facts::Facts;
use mark_parts::mark_facts::part::{Named, Part};
use mark_parts::mark_facts::parts::Parts;
use mark_parts::mark_facts::rows::{row_of, type_at};
use mark_parts::mark_rows::rows::{event_owner, property_owner};
use mark_parts::mark_tables::marker::Marker;
use mark_parts::sigs::add_method_sig;
use rules::link_rules::RowAt;
use std::alloc::Global;
use type_tables::methods::type_of_method;

/// Shows the type in a row, where there is one.
#[tactic(auto, using(crate::proofs::lemmas::mark_needs::Lists::none_more))]
fn show_at(all: &[AsmRec], of: Option<RowAt>, facts: &mut Facts) -> Result<(), NoMemory>
    ensures { OnOk result (facts.new ≡ facts.old ++ map shown (listed (id_of all.now of))) }
{
    match of {
        Some(at) => {
            let id = type_at(all, at)?;
            facts.show(id)
        }
        None => Ok(()),
    }
}

/// Shows the type in a row of an assembly, where there is one.
#[tactic(auto, using(crate::proofs::lemmas::mark_needs::Lists::none_more))]
fn show_row(all: &[AsmRec], asm: u32, owner: Option<u32>, facts: &mut Facts) -> Result<(), NoMemory>
    ensures { OnOk result (facts.new ≡ facts.old ++ map shown (listed (option_map (type_id all.now asm) owner))) }
{
    match owner {
        Some(row) => {
            let id = type_at(all, RowAt { asm, row })?;
            facts.show(id)
        }
        None => Ok(()),
    }
}

/// Shows the encloser of a type.
#[tactic(auto, using(crate::proofs::lemmas::mark_needs::Lists::none_more))]
fn show_encloser(marker: &Marker<'_>, at: RowAt, facts: &mut Facts) -> Result<(), NoMemory>
    requires { IsMarker marker.now }
    ensures { OnOk result (facts.new ≡ facts.old ++ map shown (listed (owning (all_of marker.now) at encloser))) }
{
    let Some(asm) = marker.assembly_at(at.asm) else {
        return Ok(());
    };
    let around = asm.encloser(at.row)?;
    show_row(marker.tables.world.recs.as_slice(), at.asm, around, facts)
}

/// Shows the type of a method.
#[tactic(auto, using(crate::proofs::lemmas::mark_needs::Lists::none_more))]
fn show_type_of_method(marker: &Marker<'_>, at: RowAt, facts: &mut Facts) -> Result<(), NoMemory>
    requires { IsMarker marker.now }
    ensures { OnOk result (facts.new ≡ facts.old ++ map shown (listed (id_of (all_of marker.now) (type_of_method (all_of marker.now) at)))) }
{
    let of = type_of_method(&marker.tables, at)?;
    show_at(marker.tables.world.recs.as_slice(), of, facts)
}

/// Shows the type of a field.
#[tactic(auto, using(crate::proofs::lemmas::mark_needs::Lists::none_more))]
fn show_field_owner(marker: &Marker<'_>, at: RowAt, facts: &mut Facts) -> Result<(), NoMemory>
    requires { IsMarker marker.now }
    ensures { OnOk result (facts.new ≡ facts.old ++ map shown (listed (owning (all_of marker.now) at owner_of_field))) }
{
    let Some(asm) = marker.assembly_at(at.asm) else {
        return Ok(());
    };
    let owner = asm.owner_of_field(at.row)?;
    show_row(marker.tables.world.recs.as_slice(), at.asm, owner, facts)
}

/// Shows the type of a property.
#[tactic(auto, using(crate::proofs::lemmas::mark_needs::Lists::none_more))]
fn show_property_owner(marker: &Marker<'_>, at: RowAt, facts: &mut Facts) -> Result<(), NoMemory>
    requires { IsMarker marker.now }
    ensures { OnOk result (facts.new ≡ facts.old ++ map shown (listed (owning (all_of marker.now) at property_owner))) }
{
    let Some(asm) = marker.assembly_at(at.asm) else {
        return Ok(());
    };
    let owner = property_owner(asm.scope.rec, at.row);
    show_row(marker.tables.world.recs.as_slice(), at.asm, owner, facts)
}

/// Shows the type of an event.
#[tactic(auto, using(crate::proofs::lemmas::mark_needs::Lists::none_more))]
fn show_event_owner(marker: &Marker<'_>, at: RowAt, facts: &mut Facts) -> Result<(), NoMemory>
    requires { IsMarker marker.now }
    ensures { OnOk result (facts.new ≡ facts.old ++ map shown (listed (owning (all_of marker.now) at event_owner))) }
{
    let Some(asm) = marker.assembly_at(at.asm) else {
        return Ok(());
    };
    let owner = event_owner(asm.scope.rec, at.row);
    show_row(marker.tables.world.recs.as_slice(), at.asm, owner, facts)
}

/// Shows the class of an interface row.
fn show_class(marker: &Marker<'_>, at: RowAt, facts: &mut Facts) -> Result<(), NoMemory>
    ensures { OnOk result (facts.new ≡ facts.old ++ map shown (listed (class_of_impl (all_of marker.now) at))) }
{
    let all = marker.tables.world.recs.as_slice();
    let class = row_class(all, at);
    show_at(all, class, facts)
}

/// Shows the type that has an item.
#[tactic(auto, using(crate::proofs::lemmas::mark_needs::Lists::none_more))]
fn show_owner(marker: &Marker<'_>, item: Item, at: RowAt, facts: &mut Facts) -> Result<(), NoMemory>
    requires { IsMarker marker.now }
    ensures { OnOk result (facts.new ≡ facts.old ++ map shown (listed (owner_of (all_of marker.now) item at))) }
{
    match item {
        Item::Asm(_) => Ok(()),
        Item::Typ(_) => show_encloser(marker, at, facts),
        Item::Method(_) => show_type_of_method(marker, at, facts),
        Item::Field(_) => show_field_owner(marker, at, facts),
        Item::Prop(_) => show_property_owner(marker, at, facts),
        Item::Event(_) => show_event_owner(marker, at, facts),
        Item::Impl(_) => show_class(marker, at, facts),
    }
}

/// Shows the definitions that a type names; members that are named aren't looked at.
#[tactic(auto, using(crate::proofs::lemmas::mark_needs::Lists::none_more))]
fn show_named(named: &Named, facts: &mut Facts) -> Result<(), NoMemory>
    ensures { OnOk result (facts.new ≡ facts.old ++ map shown (types_of_named (named_told named.now))) }
{
    match named {
        Named::Type(ty) => say_types(facts, Said::Shown, ty),
        Named::Method(_) => Ok(()),
        Named::Field(_) => Ok(()),
    }
}

/// Shows the definitions in the type that a part names; a bad part names none.
#[tactic(auto, using(crate::proofs::lemmas::mark_needs::Lists::none_more))]
fn show_part(part: &Part, facts: &mut Facts) -> Result<(), NoMemory>
    ensures { OnOk result (facts.new ≡ facts.old ++ map shown (types_of_known (part_told part.now).named)) }
{
    match &part.named {
        Known::Good(named) => show_named(named, facts),
        Known::Bad(_) => Ok(()),
    }
}

/// Shows the definitions in the types that parts name.
fn show_parts(parts: &[Part], facts: &mut Facts) -> Result<(), NoMemory>
    ensures { OnOk result (facts.new ≡ facts.old ++ map shown (types_of_parts (map part_told parts.now))) }
{
    for part in parts {
        show_part(part, facts)?;
    }
    Ok(())
}

/// Adds the types of a method's signature.
#[tactic(auto, using(crate::proofs::lemmas::mark_needs::Lists::none_more))]
fn add_signature(
    alloc: Global,
    marker: &Marker<'_>,
    at: RowAt,
    parts: &mut Parts,
) -> Result<(), NoMemory>
    requires { IsMarker marker.now }
    ensures { OnOk result (parts.new ≡ parts.old ++ signature_parts (all_of marker.now) at) }
{
    let Some(asm) = marker.assembly_at(at.asm) else {
        return Ok(());
    };
    let Some(m) = asm.scope.rec.method_def.get(at.row as usize) else {
        return Ok(());
    };
    let row = token_of(table::METHOD_DEF, at.row as usize)?;
    add_method_sig(alloc, &asm, row, &m.signature, parts)
}

/// Shows the types in the signature of a method.
fn show_method(
    alloc: Global,
    marker: &Marker<'_>,
    at: RowAt,
    facts: &mut Facts,
) -> Result<(), NoMemory>
    requires { IsMarker marker.now }
    ensures { OnOk result (facts.new ≡ facts.old ++ map shown (types_of_parts (signature_parts (all_of marker.now) at))) }
{
    let mut parts = Parts::new(alloc);
    add_signature(alloc, marker, at, &mut parts)?;
    show_parts(parts.as_slice(), facts)
}

/// Shows the types in the signature of a field.
fn show_field(
    alloc: Global,
    marker: &Marker<'_>,
    at: RowAt,
    facts: &mut Facts,
) -> Result<(), NoMemory>
    requires { IsMarker marker.now }
    ensures { OnOk result (facts.new ≡ facts.old ++ map shown (types_of_parts (parts_of_field (all_of marker.now) at))) }
{
    let mut parts = Parts::new(alloc);
    add_parts_of_field(alloc, marker, at, &mut parts)?;
    show_parts(parts.as_slice(), facts)
}

/// Shows the types in the signature of a property.
fn show_property(
    alloc: Global,
    marker: &Marker<'_>,
    at: RowAt,
    facts: &mut Facts,
) -> Result<(), NoMemory>
    requires { IsMarker marker.now }
    ensures { OnOk result (facts.new ≡ facts.old ++ map shown (types_of_parts (parts_of_property (all_of marker.now) at))) }
{
    let mut parts = Parts::new(alloc);
    add_parts_of_property(alloc, marker, at, &mut parts)?;
    show_parts(parts.as_slice(), facts)
}

/// Shows the types in the signature of an item; a type, an event and an interface row have none.
#[tactic(auto, using(crate::proofs::lemmas::mark_needs::Lists::none_more))]
fn show_signature(
    alloc: Global,
    marker: &Marker<'_>,
    item: Item,
    at: RowAt,
    facts: &mut Facts,
) -> Result<(), NoMemory>
    requires { IsMarker marker.now }
    ensures { OnOk result (facts.new ≡ facts.old ++ map shown (types_of_signature (all_of marker.now) item at)) }
{
    match item {
        Item::Asm(_) => Ok(()),
        Item::Typ(_) => Ok(()),
        Item::Method(_) => show_method(alloc, marker, at, facts),
        Item::Field(_) => show_field(alloc, marker, at, facts),
        Item::Prop(_) => show_property(alloc, marker, at, facts),
        Item::Event(_) => Ok(()),
        Item::Impl(_) => Ok(()),
    }
}

/// Adds the types that an item in a row shows.
#[tactic(auto, using(crate::proofs::lemmas::mark_needs::Lists::both_mapped))]
fn add_shows(
    alloc: Global,
    marker: &Marker<'_>,
    item: Item,
    at: RowAt,
    facts: &mut Facts,
) -> Result<(), NoMemory>
    requires { IsMarker marker.now }
    ensures { OnOk result (facts.new ≡ facts.old ++ shown_with (all_of marker.now) item at) }
{
    show_owner(marker, item, at, facts)?;
    show_signature(alloc, marker, item, at, facts)
}

/// Adds the types that an item shows which reflection may reach: the type that has it, and those in its signature.
#[tactic(auto, unfolding(rules::specs::mark_rules::ReflectedShown::reflected_shows), using(crate::proofs::lemmas::mark_needs::Lists::none_more))]
pub fn add_reflected_shows(
    alloc: Global,
    marker: &Marker<'_>,
    item: Item,
    facts: &mut Facts,
) -> Result<(), NoMemory>
    requires { IsMarker marker.now }
    ensures { OnOk result (facts.new ≡ facts.old ++ reflected_shows (all_of marker.now) item) }
{
    match row_of(marker.tables.world.recs.as_slice(), item) {
        Ok(Some(at)) => add_shows(alloc, marker, item, at, facts),
        Ok(None) => Ok(()),
        Err(error) => Err(error),
    }
}
