//! The items that the attributes of an item mark.

ghost use Rattle.std.specs.Prelude.{◌≡◌, ◌++◌, OnOk};
ghost use Rattle.std.specs.List.{flat_map};
ghost use Rattle.rules.specs.link_rules.Cycles.{listed};
ghost use Rattle.rules.specs.mark_rules.Places as places;
ghost use Rattle.rules.specs.mark_rules.Attributes.{attribute_needs};
ghost use Rattle.mark_parts.specs.mark_tables.Assemblies.{all_of, IsMarker};
ghost use Rattle.attribute_values.specs.Tables.{AreAttributeTables};
ghost use Rattle.mark_dependencies.specs.mark_attributes.Needs.{item_facts};

use crate::mark_attributes::rows::add_attributes;
use attribute_values::reader::reader_of;
use attribute_values::tables::AttributeTables;
use il_base::{Item, NoMemory};
use mark_parts::mark_facts::facts::Facts;
use mark_parts::mark_facts::rows::row_of;
use mark_parts::mark_tables::marker::Marker;
use rules::link_rules::RowAt;
use std::alloc::Global;

/// Marks what the attributes of an item in a row name.
#[tactic(auto, using(crate::proofs::lemmas::mark_attributes::Lists::none_more))]
fn add_at<'a>(
    alloc: Global,
    marker: &'a Marker<'a>,
    tables: &'a AttributeTables<'a>,
    item: Item,
    at: RowAt,
    facts: &mut Facts,
) -> Result<(), NoMemory>
    requires marker { IsMarker marker.now }
    requires tables { AreAttributeTables marker.now tables.now }
    ensures { OnOk result (facts.new ≡ facts.old ++ item_facts (all_of marker.now) item at) }
{
    let Some(asm) = marker.assembly_at(at.asm) else {
        return Ok(());
    };
    let reader = reader_of(marker, tables, asm, at.asm)?;
    add_attributes(alloc, &reader, item, at.row, facts)?;
    Ok(())
}

/// Marks what the attributes of an item name, if it has a row.
#[tactic(auto, using(crate::proofs::lemmas::mark_attributes::Lists::none_more))]
fn add_needs<'a>(
    alloc: Global,
    marker: &'a Marker<'a>,
    tables: &'a AttributeTables<'a>,
    item: Item,
    facts: &mut Facts,
) -> Result<(), NoMemory>
    requires marker { IsMarker marker.now }
    requires tables { AreAttributeTables marker.now tables.now }
    ensures { OnOk result (facts.new ≡ facts.old ++ flat_map (item_facts (all_of marker.now) item) (listed (places.row_of (all_of marker.now) item))) }
{
    match row_of(marker.tables.world.recs.as_slice(), item) {
        Ok(Some(at)) => add_at(alloc, marker, tables, item, at, facts),
        Ok(None) => Ok(()),
        Err(error) => Err(error),
    }
}

/// Adds the facts that the attributes of a marked item give. An attribute whose constructor is in an input marks that constructor
/// with its owner and arguments, the fields and setters that its value names, and the types in the value.
pub fn attribute_needs<'a>(
    alloc: Global,
    marker: &'a Marker<'a>,
    tables: &'a AttributeTables<'a>,
    item: Item,
    facts: &mut Facts,
) -> Result<(), NoMemory>
    requires marker { IsMarker marker.now }
    requires tables { AreAttributeTables marker.now tables.now }
    ensures { OnOk result (facts.new ≡ facts.old ++ attribute_needs (all_of marker.now) item) }
{
    add_needs(alloc, marker, tables, item, facts)?;
    Ok(())
}
