//! The types that a marked item shows, and the encloser that a shown type shows.

ghost use Rattle.std.specs.Prelude.{◌≡◌, ◌++◌, map, OnOk};
ghost use Rattle.std.specs.List.{flat_map};
ghost use Rattle.il_base.specs.world_model.Worlds.{type_id};
ghost use Rattle.rules.specs.link_rules.Types.{encloser};
ghost use Rattle.rules.specs.link_rules.Cycles.{listed};
ghost use Rattle.rules.specs.type_rules.Rows.{rec_at};
ghost use Rattle.rules.specs.mark_rules.Facts.Fact.{shown};
ghost use Rattle.rules.specs.mark_rules.Shown.{showing_parts, shown_by_item, shows, item_shows, encloser_shown};
ghost use Rattle.mark_parts.specs.mark_tables.Assemblies.{all_of, IsMarker};
ghost use Rattle.mark_items.specs.mark_needs.Enclosing.{encloser_facts, shown_encloser, shown_by_method};

use crate::mark_needs::code::show_code;
use il_base::world_model::AsmRec;
use il_base::{Item, NoMemory, TypeId};
use mark_parts::items::{
    add_parts_of_field, add_parts_of_impl, add_parts_of_property, add_parts_of_type,
};
use mark_parts::mark_facts::facts::Facts;
use mark_parts::mark_facts::parts::Parts;
use mark_parts::mark_facts::rows::{row_of, type_at};
use mark_parts::mark_tables::marker::Marker;
use mark_parts::methods::add_uncaught_parts;
use rules::link_rules::RowAt;
use std::alloc::Global;
use type_tables::member_search::homes::type_home;

/// Adds the parts of an item in which a generic argument is shown.
#[tactic(auto, using(crate::proofs::lemmas::mark_needs::Lists::none_more))]
fn add_showing_parts(
    alloc: Global,
    marker: &Marker<'_>,
    item: Item,
    at: RowAt,
    parts: &mut Parts,
) -> Result<(), NoMemory>
    requires { IsMarker marker.now }
    ensures { OnOk result (parts.new ≡ parts.old ++ showing_parts (all_of marker.now) item at) }
{
    match item {
        Item::Asm(_) => Ok(()),
        Item::Typ(_) => add_parts_of_type(alloc, marker, at, parts),
        Item::Method(_) => add_uncaught_parts(alloc, marker, at, parts),
        Item::Field(_) => add_parts_of_field(alloc, marker, at, parts),
        Item::Prop(_) => add_parts_of_property(alloc, marker, at, parts),
        Item::Event(_) => Ok(()),
        Item::Impl(_) => add_parts_of_impl(alloc, marker, at, parts),
    }
}

/// Shows the types that the code of a method shows.
fn show_method(marker: &Marker<'_>, at: RowAt, facts: &mut Facts) -> Result<(), NoMemory>
    requires { IsMarker marker.now }
    ensures { OnOk result (facts.new ≡ facts.old ++ map shown (shown_by_method (all_of marker.now) at)) }
{
    let Some(asm) = marker.assembly_at(at.asm) else {
        return Ok(());
    };
    let Some(m) = asm.scope.rec.method_def.get(at.row as usize) else {
        return Ok(());
    };
    show_code(&asm, m, facts)
}

/// Shows the types that the code of an item shows, where it is a method.
fn show_by_item(
    marker: &Marker<'_>,
    item: Item,
    at: RowAt,
    facts: &mut Facts,
) -> Result<(), NoMemory>
    requires { IsMarker marker.now }
    ensures { OnOk result (facts.new ≡ facts.old ++ map shown (shown_by_item (all_of marker.now) item at)) }
{
    match item {
        Item::Method(_) => show_method(marker, at, facts),
        Item::Asm(_) => Ok(()),
        Item::Typ(_) => Ok(()),
        Item::Field(_) => Ok(()),
        Item::Prop(_) => Ok(()),
        Item::Event(_) => Ok(()),
        Item::Impl(_) => Ok(()),
    }
}

/// Adds the types that an item in a row shows.
#[tactic(auto, using(crate::proofs::lemmas::mark_needs::Lists::both_mapped))]
fn add_shows(
    alloc: Global,
    marker: &Marker<'_>,
    item: Item,
    at: RowAt,
    facts: &mut Facts,
) -> Result<(), NoMemory>
    requires { IsMarker marker.now }
    ensures { OnOk result (facts.new ≡ facts.old ++ shows (all_of marker.now) item at) }
{
    let mut parts = Parts::new(alloc);
    add_showing_parts(alloc, marker, item, at, &mut parts)?;
    parts.show_arguments(facts)?;
    show_by_item(marker, item, at, facts)
}

/// Adds the types that a marked item shows: generic arguments, and the types that its code makes, boxes or has handles of.
#[tactic(auto, unfolding(rules::specs::mark_rules::Shown::item_shows), using(crate::proofs::lemmas::mark_needs::Lists::none_more))]
pub fn add_item_shows(
    alloc: Global,
    marker: &Marker<'_>,
    item: Item,
    facts: &mut Facts,
) -> Result<(), NoMemory>
    requires { IsMarker marker.now }
    ensures { OnOk result (facts.new ≡ facts.old ++ item_shows (all_of marker.now) item) }
{
    match row_of(marker.tables.world.recs.as_slice(), item) {
        Ok(Some(at)) => add_shows(alloc, marker, item, at, facts),
        Ok(None) => Ok(()),
        Err(error) => Err(error),
    }
}

/// Shows a type of an assembly, where there is one.
fn show_encloser(
    all: &[AsmRec],
    asm: u32,
    around: Option<u32>,
    facts: &mut Facts,
) -> Result<(), NoMemory>
    ensures { OnOk result (facts.new ≡ facts.old ++ shown_encloser all.now asm around) }
{
    match around {
        Some(row) => {
            let id = type_at(all, RowAt { asm, row })?;
            facts.show(id)
        }
        None => Ok(()),
    }
}

/// Shows the encloser of the type in a row.
fn add_encloser(marker: &Marker<'_>, at: RowAt, facts: &mut Facts) -> Result<(), NoMemory>
    requires { IsMarker marker.now }
    ensures { OnOk result (facts.new ≡ facts.old ++ encloser_facts (all_of marker.now) at) }
{
    let Some(asm) = marker.assembly_at(at.asm) else {
        return Ok(());
    };
    let around = asm.encloser(at.row)?;
    show_encloser(marker.tables.world.recs.as_slice(), at.asm, around, facts)
}

/// Adds the types that a shown type shows: its encloser.
#[tactic(auto, unfolding(rules::specs::mark_rules::Shown::encloser_shown), using(crate::proofs::lemmas::mark_needs::Lists::none_more))]
pub fn add_encloser_shown(
    marker: &Marker<'_>,
    id: TypeId,
    facts: &mut Facts,
) -> Result<(), NoMemory>
    requires { IsMarker marker.now }
    ensures { OnOk result (facts.new ≡ facts.old ++ encloser_shown (all_of marker.now) id) }
{
    match type_home(marker.tables.world.recs.as_slice(), id) {
        Ok(Some(at)) => add_encloser(marker, at, facts),
        Ok(None) => Ok(()),
        Err(error) => Err(error),
    }
}
