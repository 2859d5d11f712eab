//! The dependencies of an item.

ghost use Rattle.std.specs.Prelude.{◌≡◌, ◌++◌, ◌∷◌, [], suc, IfOk, OnOk};
ghost use Rattle.std.specs.List.{flat_map};
ghost use Rattle.il_base.specs.world_model.Tokens.{token_of};
ghost use Rattle.rules.specs.link_rules.Cycles.{listed};
ghost use Rattle.rules.specs.mark_rules.Places as places;
ghost use Rattle.rules.specs.mark_rules.Annotations.{dependent_token, dependencies_in, dependencies_at, dependencies};
ghost use Rattle.mark_parts.specs.mark_tables.Assemblies.{all_of, IsMarker};
ghost use Rattle.attribute_values.specs.attribute_kinds.Sites.{recs_in, place_in, rec_in};
ghost use Rattle.attribute_values.specs.Tables.{AreAttributeTables};
ghost use Rattle.attribute_values.specs.Readers.{IsReader};

use crate::item_dependencies::rows::add_of_token;
use attribute_values::dependency_forms::dependencies::Dependencies;
use attribute_values::reader::{Reader, reader_of};
use attribute_values::tables::AttributeTables;
use il_base::world_model::token_of;
use il_base::{Item, NoMemory, table};
use mark_parts::mark_facts::rows::row_of;
use mark_parts::mark_tables::marker::Marker;
use rules::link_rules::RowAt;
use std::alloc::Global;

/// The token of a row, from 0.
fn token_in(table: u8, row: u32) -> Result<Option<u32>, NoMemory>
    ensures { IfOk result (λ token. listed token ≡ token_of table (suc row) ∷ []) }
{
    let token = token_of(table, row as usize)?;
    Ok(Some(token))
}

/// The token of a method or a field by its row, from 0; other items have no dependencies.
fn dependent_token(item: Item, row: u32) -> Result<Option<u32>, NoMemory>
    ensures { IfOk result (λ token. listed token ≡ dependent_token item row) }
{
    match item {
        Item::Method(_) => token_in(table::METHOD_DEF, row),
        Item::Field(_) => token_in(table::FIELD, row),
        Item::Asm(_) => Ok(None),
        Item::Typ(_) => Ok(None),
        Item::Prop(_) => Ok(None),
        Item::Event(_) => Ok(None),
        Item::Impl(_) => Ok(None),
    }
}

/// Adds the dependencies of an item of the reader's assembly, by its row from 0.
#[tactic(auto, using(crate::proofs::lemmas::item_dependencies::Lists::none_more))]
fn add_in(
    alloc: Global,
    reader: &Reader<'_>,
    item: Item,
    row: u32,
    found: &mut Dependencies,
) -> Result<(), NoMemory>
    requires { IsReader reader.now }
    ensures { OnOk result (found.new ≡ found.old ++ flat_map (dependencies_in (recs_in reader.now.site) (place_in reader.now.site) (rec_in reader.now.site)) (dependent_token item row)) }
{
    let token = dependent_token(item, row)?;
    match token {
        Some(token) => {
            add_of_token(alloc, reader, token, found)?;
            Ok(())
        }
        None => Ok(()),
    }
}

/// Adds the dependencies of an item in a row.
#[tactic(auto, using(crate::proofs::lemmas::item_dependencies::Lists::none_more))]
fn add_at<'a>(
    alloc: Global,
    marker: &'a Marker<'a>,
    tables: &'a AttributeTables<'a>,
    item: Item,
    at: RowAt,
    found: &mut Dependencies,
) -> Result<(), NoMemory>
    requires marker { IsMarker marker.now }
    requires tables { AreAttributeTables marker.now tables.now }
    ensures { OnOk result (found.new ≡ found.old ++ dependencies_at (all_of marker.now) item at) }
{
    let Some(asm) = marker.assembly_at(at.asm) else {
        return Ok(());
    };
    let reader = reader_of(marker, tables, asm, at.asm)?;
    add_in(alloc, &reader, item, at.row, found)?;
    Ok(())
}

/// Adds the dependencies of an item, if it has a row.
#[tactic(auto, using(crate::proofs::lemmas::item_dependencies::Lists::none_more))]
fn add_dependencies<'a>(
    alloc: Global,
    marker: &'a Marker<'a>,
    tables: &'a AttributeTables<'a>,
    item: Item,
    found: &mut Dependencies,
) -> Result<(), NoMemory>
    requires marker { IsMarker marker.now }
    requires tables { AreAttributeTables marker.now tables.now }
    ensures { OnOk result (found.new ≡ found.old ++ flat_map (dependencies_at (all_of marker.now) item) (listed (places.row_of (all_of marker.now) item))) }
{
    match row_of(marker.tables.world.recs.as_slice(), item) {
        Ok(Some(at)) => add_at(alloc, marker, tables, item, at, found),
        Ok(None) => Ok(()),
        Err(error) => Err(error),
    }
}

/// The dependencies of a method or a field, in the order of the rows that give them; other items have none.
#[tactic(auto, unfolding(rules::specs::mark_rules::Annotations::dependencies))]
pub fn dependencies<'a>(
    alloc: Global,
    marker: &'a Marker<'a>,
    tables: &'a AttributeTables<'a>,
    item: Item,
) -> Result<Dependencies, NoMemory>
    requires marker { IsMarker marker.now }
    requires tables { AreAttributeTables marker.now tables.now }
    ensures { IfOk result (λ found. found ≡ dependencies (all_of marker.now) item) }
{
    let mut found = Dependencies::new(alloc);
    add_dependencies(alloc, marker, tables, item, &mut found)?;
    Ok(found)
}
