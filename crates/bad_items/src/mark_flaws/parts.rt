//! Parts of an item that name nothing or have no reading.

ghost use Rattle.std.specs.Prelude.{◌≡◌, ◌++◌, map, OnOk};
ghost use Rattle.std.specs.List.{flat_map};
ghost use Rattle.rules.specs.mark_rules.BadItems.{part_flaw, part_flaws};
ghost use Rattle.rules.specs.mark_rules.Shown.{parts_of_item};
ghost use Rattle.mark_parts.specs.mark_facts.Told.{part_told};
ghost use Rattle.mark_parts.specs.mark_tables.Assemblies.{all_of, IsMarker};

use crate::mark_flaws::flaws::Flaws;
use il_base::world_model::Known;
use il_base::{Item, NoMemory};
use mark_parts::items::{
    add_parts_of_event, add_parts_of_field, add_parts_of_impl, add_parts_of_property,
    add_parts_of_type,
};
use mark_parts::mark_facts::part::Part;
use mark_parts::mark_facts::parts::Parts;
use mark_parts::mark_tables::marker::Marker;
use mark_parts::methods::add_parts_of_method;
use rules::link_rules::RowAt;
use std::alloc::Global;

/// Puts the flaw of a part at the end, if it has one.
#[tactic(auto, using(crate::proofs::lemmas::mark_flaws::Lists::none_more))]
fn add_part(at: RowAt, part: &Part, flaws: &mut Flaws) -> Result<(), NoMemory>
    ensures { OnOk result (flaws.new ≡ flaws.old ++ part_flaw at (part_told part.now)) }
{
    match &part.named {
        Known::Good(_) => Ok(()),
        Known::Bad(why) => flaws.put(at, part.token, part.at, *why),
    }
}

/// Puts the flaws of these parts at the end.
fn add_all(at: RowAt, parts: &[Part], flaws: &mut Flaws) -> Result<(), NoMemory>
    ensures { OnOk result (flaws.new ≡ flaws.old ++ flat_map (part_flaw at) (map part_told parts.now)) }
{
    for part in parts {
        add_part(at, part, flaws)?;
    }
    Ok(())
}

/// Puts the parts of an item at the end.
#[tactic(auto, using(crate::proofs::lemmas::mark_flaws::Lists::none_more))]
fn add_parts(
    alloc: Global,
    marker: &Marker<'_>,
    item: Item,
    at: RowAt,
    parts: &mut Parts,
) -> Result<(), NoMemory>
    requires { IsMarker marker.now }
    ensures { OnOk result (parts.new ≡ parts.old ++ parts_of_item (all_of marker.now) item at) }
{
    match item {
        Item::Asm(_) => Ok(()),
        Item::Typ(_) => add_parts_of_type(alloc, marker, at, parts),
        Item::Method(_) => add_parts_of_method(alloc, marker, at, parts),
        Item::Field(_) => add_parts_of_field(alloc, marker, at, parts),
        Item::Prop(_) => add_parts_of_property(alloc, marker, at, parts),
        Item::Event(_) => add_parts_of_event(alloc, marker, at, parts),
        Item::Impl(_) => add_parts_of_impl(alloc, marker, at, parts),
    }
}

/// Puts the flaws of an item's parts at the end.
pub(crate) fn add_part_flaws(
    alloc: Global,
    marker: &Marker<'_>,
    item: Item,
    at: RowAt,
    flaws: &mut Flaws,
) -> Result<(), NoMemory>
    requires { IsMarker marker.now }
    ensures { OnOk result (flaws.new ≡ flaws.old ++ part_flaws (all_of marker.now) item at) }
{
    let mut parts = Parts::new(alloc);
    add_parts(alloc, marker, item, at, &mut parts)?;
    add_all(at, parts.as_slice(), flaws)?;
    Ok(())
}
