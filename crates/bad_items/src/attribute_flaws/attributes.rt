//! The attribute rows of an item that have to be readable and aren't.

ghost use Rattle.std.specs.Prelude.{◌≡◌, ◌++◌, [], slice_get, OnOk};
ghost use Rattle.std.specs.List.{flat_map};
ghost use Rattle.std.specs.Option.{option_map_or};
ghost use Rattle.rules.specs.mark_rules.BadItems.{attribute_flaws};
ghost use Rattle.attribute_values.specs.attribute_kinds.Sites.{recs_in, place_in, rec_in};
ghost use Rattle.attribute_values.specs.Readers.{IsReader};
ghost use Rattle.bad_items.specs.attribute_flaws.Rows.{unread_flaw};

use crate::attribute_flaws::readings::is_unread;
use crate::mark_flaws::flaws::Flaws;
use attribute_values::attribute_rows::rows::rows_of_item;
use attribute_values::reader::Reader;
use il_base::world_model::{CustomAttributeRow, token_of};
use il_base::{Item, NoMemory, outside, table};
use rules::link_rules::RowAt;
use std::alloc::Global;

/// Puts the flaw of a row, which has this place, from 0, at the end, if it has to be readable and isn't.
fn add_row(
    alloc: Global,
    reader: &Reader<'_>,
    at: RowAt,
    k: u32,
    row: &CustomAttributeRow,
    flaws: &mut Flaws,
) -> Result<(), NoMemory>
    requires { IsReader reader.now }
    ensures { OnOk result (flaws.new ≡ flaws.old ++ unread_flaw (recs_in reader.now.site) (place_in reader.now.site) (rec_in reader.now.site) at k row.now) }
{
    let unread = is_unread(alloc, reader, row)?;
    let token = token_of(table::CUSTOM_ATTRIBUTE, k as usize)?;
    flaws.put_if(unread, at, token, outside::ATTRIBUTE)
}

/// Puts the flaw of the row in a place, from 0, at the end.
#[tactic(auto, using(crate::proofs::lemmas::attribute_flaws::Lists::none_more))]
fn add_row_at(
    alloc: Global,
    reader: &Reader<'_>,
    at: RowAt,
    k: u32,
    flaws: &mut Flaws,
) -> Result<(), NoMemory>
    requires { IsReader reader.now }
    ensures { OnOk result (flaws.new ≡ flaws.old ++ option_map_or (unread_flaw (recs_in reader.now.site) (place_in reader.now.site) (rec_in reader.now.site) at k) (slice_get (rec_in reader.now.site).custom_attribute k) []) }
{
    match reader.site.asm.scope.rec.custom_attribute.get(k as usize) {
        Some(row) => add_row(alloc, reader, at, k, row, flaws),
        None => Ok(()),
    }
}

/// Puts the flaws of rows, by their places from 0, at the end.
fn add_rows_at(
    alloc: Global,
    reader: &Reader<'_>,
    at: RowAt,
    rows: &[u32],
    flaws: &mut Flaws,
) -> Result<(), NoMemory>
    requires { IsReader reader.now }
    ensures { OnOk result (flaws.new ≡ flaws.old ++ flat_map (λ k. option_map_or (unread_flaw (recs_in reader.now.site) (place_in reader.now.site) (rec_in reader.now.site) at k) (slice_get (rec_in reader.now.site).custom_attribute k) []) rows.now) }
{
    for k in rows {
        add_row_at(alloc, reader, at, *k, flaws)?;
    }
    Ok(())
}

/// Puts at the end the flaws of an item's attribute rows: of those of trimming and those whose constructor is in an input, each
/// that has no reading, or names kinds of members that aren't known. The item has this row, in the reader's assembly.
pub fn add_attribute_flaws(
    alloc: Global,
    reader: &Reader<'_>,
    item: Item,
    at: RowAt,
    flaws: &mut Flaws,
) -> Result<(), NoMemory>
    requires reader { IsReader reader.now }
    requires place { place_in reader.now.site ≡ at.asm }
    ensures { OnOk result (flaws.new ≡ flaws.old ++ attribute_flaws (recs_in reader.now.site) item at (rec_in reader.now.site)) }
{
    let rows = rows_of_item(alloc, &reader.site.asm, item, at.row)?;
    add_rows_at(alloc, reader, at, rows.as_slice(), flaws)?;
    Ok(())
}
