//! The dependencies that rows of CustomAttribute give.

ghost use Rattle.std.specs.Prelude.{◌≡◌, ◌++◌, [], map, slice_get, IfOk, OnOk};
ghost use Rattle.std.specs.List.{flat_map};
ghost use Rattle.std.specs.Option.{option_map_or};
ghost use Rattle.rules.specs.link_rules.Cycles.{listed};
ghost use Rattle.rules.specs.mark_rules.Annotations.{dependencies_of_row, dependencies_in};
ghost use Rattle.attribute_values.specs.dependency_forms.Told.{dependency_told};
ghost use Rattle.attribute_values.specs.attribute_kinds.Sites.{recs_in, place_in, rec_in};
ghost use Rattle.attribute_values.specs.Readers.{IsReader};
ghost use Rattle.mark_dependencies.specs.item_dependencies.Rows.{if_called};

use crate::item_dependencies::arguments::dependency_by;
use attribute_values::attribute_rows::rows::rows_of_token;
use attribute_values::dependency_forms::dependencies::Dependencies;
use attribute_values::dependency_forms::dependency::Dependency;
use attribute_values::reader::Reader;
use attribute_values::trimming_attributes::names::is_dynamic_dependency;
use attribute_values::values::value_of;
use il_base::NoMemory;
use il_base::world_model::CustomAttributeRow;
use std::alloc::Global;

/// The dependency that the value of a row names; None where it has no reading or none of the forms.
#[tactic(auto, using(crate::proofs::lemmas::item_dependencies::Lists::none_more))]
fn dependency_of_row(
    alloc: Global,
    reader: &Reader<'_>,
    row: &CustomAttributeRow,
) -> Result<Option<Dependency>, NoMemory>
    requires { IsReader reader.now }
    ensures { IfOk result (λ d. map dependency_told (listed d) ≡ dependencies_of_row (recs_in reader.now.site) (place_in reader.now.site) (rec_in reader.now.site) row.now) }
{
    match value_of(alloc, reader, row) {
        Ok(Some(v)) => dependency_by(alloc, v.fixed.as_slice()),
        Ok(None) => Ok(None),
        Err(error) => Err(error),
    }
}

/// Adds the dependency that the value of a row names.
fn add_of_row(
    alloc: Global,
    reader: &Reader<'_>,
    row: &CustomAttributeRow,
    found: &mut Dependencies,
) -> Result<(), NoMemory>
    requires { IsReader reader.now }
    ensures { OnOk result (found.new ≡ found.old ++ dependencies_of_row (recs_in reader.now.site) (place_in reader.now.site) (rec_in reader.now.site) row.now) }
{
    let named = dependency_of_row(alloc, reader, row)?;
    match named {
        Some(d) => {
            found.push(d)?;
            Ok(())
        }
        None => Ok(()),
    }
}

/// Adds the dependency that a row names, if it is a DynamicDependencyAttribute.
#[tactic(auto, using(crate::proofs::lemmas::item_dependencies::Lists::none_more))]
fn add_if_called(
    alloc: Global,
    reader: &Reader<'_>,
    row: &CustomAttributeRow,
    found: &mut Dependencies,
) -> Result<(), NoMemory>
    requires { IsReader reader.now }
    ensures { OnOk result (found.new ≡ found.old ++ if_called (recs_in reader.now.site) (place_in reader.now.site) (rec_in reader.now.site) row.now) }
{
    let is = is_dynamic_dependency(&reader.site, row)?;
    if is {
        return add_of_row(alloc, reader, row, found);
    }
    Ok(())
}

/// Adds the dependency that the row in a place, from 0, names.
#[tactic(auto, using(crate::proofs::lemmas::item_dependencies::Lists::none_more))]
fn add_at(
    alloc: Global,
    reader: &Reader<'_>,
    k: u32,
    found: &mut Dependencies,
) -> Result<(), NoMemory>
    requires { IsReader reader.now }
    ensures { OnOk result (found.new ≡ found.old ++ option_map_or (if_called (recs_in reader.now.site) (place_in reader.now.site) (rec_in reader.now.site)) (slice_get (rec_in reader.now.site).custom_attribute k) []) }
{
    match reader.site.asm.scope.rec.custom_attribute.get(k as usize) {
        Some(row) => add_if_called(alloc, reader, row, found),
        None => Ok(()),
    }
}

/// Adds the dependencies that rows, by their places from 0, name.
fn add_each(
    alloc: Global,
    reader: &Reader<'_>,
    rows: &[u32],
    found: &mut Dependencies,
) -> Result<(), NoMemory>
    requires { IsReader reader.now }
    ensures { OnOk result (found.new ≡ found.old ++ flat_map (λ k. option_map_or (if_called (recs_in reader.now.site) (place_in reader.now.site) (rec_in reader.now.site)) (slice_get (rec_in reader.now.site).custom_attribute k) []) rows.now) }
{
    for k in rows {
        add_at(alloc, reader, *k, found)?;
    }
    Ok(())
}

/// Adds the dependencies of the row with a token.
pub(crate) fn add_of_token(
    alloc: Global,
    reader: &Reader<'_>,
    token: u32,
    found: &mut Dependencies,
) -> Result<(), NoMemory>
    requires { IsReader reader.now }
    ensures { OnOk result (found.new ≡ found.old ++ dependencies_in (recs_in reader.now.site) (place_in reader.now.site) (rec_in reader.now.site) token) }
{
    let rows = rows_of_token(&reader.site.asm, token);
    add_each(alloc, reader, rows, found)?;
    Ok(())
}
