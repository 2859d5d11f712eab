//! The items that rows of CustomAttribute mark.

ghost use Rattle.std.specs.Prelude.{◌≡◌, ◌++◌, [], slice_get, OnOk};
ghost use Rattle.std.specs.List.{flat_map, filter};
ghost use Rattle.std.specs.Option.{option_copied, option_map_or};
ghost use Rattle.il_base.specs.world_model.Worlds.{known_or};
ghost use Rattle.rules.specs.link_rules.Cycles.{listed};
ghost use Rattle.rules.specs.mark_rules.Naming.{method_named, of_method_use};
ghost use Rattle.rules.specs.mark_rules.Attributes as attributes;
ghost use Rattle.rules.specs.mark_rules.Attributes.{has_parent, tokens_in, value_facts, row_facts, attribute_facts};
ghost use Rattle.attribute_values.specs.attribute_kinds.Sites.{recs_in, place_in, rec_in, IsSite};
ghost use Rattle.attribute_values.specs.Readers.{IsReader};

use crate::mark_attributes::values::add_value;
use attribute_values::attribute_kinds::site::Site;
use attribute_values::attribute_rows::rows::rows_of_item;
use attribute_values::reader::Reader;
use attribute_values::values::value_of;
use il_base::world_model::{CustomAttributeRow, Known, MethodUse};
use il_base::{Item, NoMemory};
use mark_parts::mark_facts::facts::Facts;
use mark_parts::mark_facts::naming::mark_method_use;
use mark_parts::mark_facts::rows::is_core;
use mark_parts::tokens::method_link;
use std::alloc::Global;

/// Marks what the value of a row names, if it has a reading.
#[tactic(auto, using(crate::proofs::lemmas::mark_attributes::Lists::none_more))]
fn add_read_value(
    alloc: Global,
    reader: &Reader<'_>,
    row: &CustomAttributeRow,
    used: &MethodUse,
    facts: &mut Facts,
) -> Result<(), NoMemory>
    requires { IsReader reader.now }
    ensures { OnOk result (facts.new ≡ facts.old ++ flat_map (value_facts (recs_in reader.now.site) (place_in reader.now.site) used.now) (listed (attributes.value_of (recs_in reader.now.site) (place_in reader.now.site) (rec_in reader.now.site) row.now))) }
{
    match value_of(alloc, reader, row) {
        Ok(Some(v)) => add_value(alloc, reader, used, &v, facts),
        Ok(None) => Ok(()),
        Err(error) => Err(error),
    }
}

/// Marks the constructor of a row, with its owner and arguments, and what its value names.
#[tactic(auto, using(crate::proofs::lemmas::mark_attributes::Lists::two_put))]
fn add_input_row(
    alloc: Global,
    reader: &Reader<'_>,
    row: &CustomAttributeRow,
    used: &MethodUse,
    facts: &mut Facts,
) -> Result<(), NoMemory>
    requires { IsReader reader.now }
    ensures { OnOk result (facts.new ≡ facts.old ++ (of_method_use used.now ++ flat_map (value_facts (recs_in reader.now.site) (place_in reader.now.site) used.now) (listed (attributes.value_of (recs_in reader.now.site) (place_in reader.now.site) (rec_in reader.now.site) row.now)))) }
{
    mark_method_use(facts, used)?;
    add_read_value(alloc, reader, row, used, facts)
}

/// Marks what a row names, if its constructor is in an input.
#[tactic(auto, using(crate::proofs::lemmas::mark_attributes::Lists::none_more))]
fn add_row(
    alloc: Global,
    reader: &Reader<'_>,
    row: &CustomAttributeRow,
    used: &MethodUse,
    facts: &mut Facts,
) -> Result<(), NoMemory>
    requires { IsReader reader.now }
    ensures { OnOk result (facts.new ≡ facts.old ++ row_facts (recs_in reader.now.site) (place_in reader.now.site) (rec_in reader.now.site) row.now used.now) }
{
    let marker = reader.site.marker;
    let all = marker.tables.world.recs.as_slice();
    match is_core(all, Item::Method(used.method)) {
        Ok(true) => Ok(()),
        Ok(false) => add_input_row(alloc, reader, row, used, facts),
        Err(error) => Err(error),
    }
}

/// The link of a constructor's token.
fn constructor_link<'a>(site: &Site<'a>, token: u32) -> Option<&'a Known<MethodUse>>
    requires { IsSite site.now }
    ensures { known_or (option_copied result) ≡ method_named (recs_in site.now) (place_in site.now) (rec_in site.now) token }
{
    let link = method_link(&site.asm, token);
    link
}

/// Marks what a row names, if its constructor names a method that is in an input.
#[tactic(auto, using(crate::proofs::lemmas::mark_attributes::Lists::none_more))]
fn add_attribute(
    alloc: Global,
    reader: &Reader<'_>,
    row: &CustomAttributeRow,
    facts: &mut Facts,
) -> Result<(), NoMemory>
    requires { IsReader reader.now }
    ensures { OnOk result (facts.new ≡ facts.old ++ attribute_facts (recs_in reader.now.site) (place_in reader.now.site) (rec_in reader.now.site) row.now) }
{
    match constructor_link(&reader.site, row.ctor) {
        None => Ok(()),
        Some(Known::Bad(_)) => Ok(()),
        Some(Known::Good(used)) => add_row(alloc, reader, row, used, facts),
    }
}

/// Marks what the row in a place, from 0, names.
#[tactic(auto, using(crate::proofs::lemmas::mark_attributes::Lists::none_more))]
fn add_attribute_at(
    alloc: Global,
    reader: &Reader<'_>,
    k: u32,
    facts: &mut Facts,
) -> Result<(), NoMemory>
    requires { IsReader reader.now }
    ensures { OnOk result (facts.new ≡ facts.old ++ option_map_or (attribute_facts (recs_in reader.now.site) (place_in reader.now.site) (rec_in reader.now.site)) (slice_get (rec_in reader.now.site).custom_attribute k) []) }
{
    match reader.site.asm.scope.rec.custom_attribute.get(k as usize) {
        Some(row) => add_attribute(alloc, reader, row, facts),
        None => Ok(()),
    }
}

/// Marks what rows, by their places from 0, name.
fn add_attributes_at(
    alloc: Global,
    reader: &Reader<'_>,
    rows: &[u32],
    facts: &mut Facts,
) -> Result<(), NoMemory>
    requires { IsReader reader.now }
    ensures { OnOk result (facts.new ≡ facts.old ++ flat_map (λ k. option_map_or (attribute_facts (recs_in reader.now.site) (place_in reader.now.site) (rec_in reader.now.site)) (slice_get (rec_in reader.now.site).custom_attribute k) []) rows.now) }
{
    for k in rows {
        add_attribute_at(alloc, reader, *k, facts)?;
    }
    Ok(())
}

/// Marks what the attribute rows of an item, which has this row, from 0, name.
pub(crate) fn add_attributes(
    alloc: Global,
    reader: &Reader<'_>,
    item: Item,
    row: u32,
    facts: &mut Facts,
) -> Result<(), NoMemory>
    requires { IsReader reader.now }
    ensures { OnOk result (facts.new ≡ facts.old ++ flat_map (attribute_facts (recs_in reader.now.site) (place_in reader.now.site) (rec_in reader.now.site)) (filter (has_parent (tokens_in item row (rec_in reader.now.site))) (rec_in reader.now.site).custom_attribute)) }
{
    let rows = rows_of_item(alloc, &reader.site.asm, item, row)?;
    add_attributes_at(alloc, reader, rows.as_slice(), facts)?;
    Ok(())
}
