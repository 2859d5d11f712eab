//! The attributes that are written.

ghost use Rattle.std.specs.Prelude.{◌≡◌, ◌++◌, map, Some, slice_get, IfOk, OnOk};
ghost use Rattle.std.specs.List.{flat_map};
ghost use Rattle.rules.specs.link_rules.Cycles.{listed};
ghost use Rattle.resolver.specs.type_links.Index.{IsIndex};
ghost use Rattle.mark_parts.specs.mark_tables.Assemblies.{all_of};
ghost use Rattle.rules.specs.merge_rules.Attributes.{attribute_with, constructor_key};
ghost use Rattle.token_keys.specs.Keys.{IsKeys, recs_of, place_of, rec_of};
ghost use Rattle.token_keys.specs.world_keys.Keys.{IsWorldKeys};
ghost use Rattle.restrict.specs.merged_attributes.Attributes.{told, in_key_order, attribute_by, attributes_in, attributes_by};

use crate::constructor_keys::constructor_key;
use il_base::cli_format::CodedIndex;
use il_base::world_model::{AsmRec, CustomAttributeRow};
use il_base::{NoMemory, Seq, Text};
use merge_plan::inputs;
use merge_plan::kept_tables::coded::coded;
use merge_plan::kept_tables::tables::KeptTables;
use resolver::type_links::TypeIndex;
use std::alloc::Global;
use token_keys::key_codes::keys::MethodKey;
use token_keys::keys::Keys;
use token_keys::world_keys::WorldKeys;
use type_tables::member_search::counted::row_of;

/// An attribute that is written.
#[derive(Drop)]
pub struct Attribute {
    /// A token of the output.
    pub parent: u32,
    pub ctor: MethodKey,
    /// The blob of its arguments (II.23.3).
    pub value: Text,
}

/// Puts the attribute of a row whose parent is kept at the end, where the output names its constructor.
fn push_with(
    alloc: Global,
    keys: &Keys<'_>,
    index: &TypeIndex<'_>,
    parent: u32,
    row: &CustomAttributeRow,
    all: &mut Vec<Attribute>,
) -> Result<(), NoMemory>
    requires keys { IsKeys keys.now }
    requires index { IsIndex index.now }
    requires same { index.now.all.now ≡ recs_of keys.now }
    ensures { OnOk result (map told all.new.items ≡ map told all.old.items ++ map (attribute_with row.now.value parent) (listed (constructor_key (recs_of keys.now) (place_of keys.now) (rec_of keys.now) row.now.ctor))) }
{
    let value = Seq::from_slice(alloc, row.value.as_slice())?;
    match constructor_key(alloc, keys, index, row.ctor) {
        Ok(Some(ctor)) => {
            all.push(Attribute {
                parent,
                ctor,
                value,
            })?;
            Ok(())
        }
        Ok(None) => Ok(()),
        Err(error) => Err(error),
    }
}

/// Puts the attribute of a row at the end, where its parent is kept and the output names its constructor.
fn push_attribute(
    alloc: Global,
    keys: &Keys<'_>,
    index: &TypeIndex<'_>,
    tables: &KeptTables,
    row: &CustomAttributeRow,
    all: &mut Vec<Attribute>,
) -> Result<(), NoMemory>
    requires keys { IsKeys keys.now }
    requires index { IsIndex index.now }
    requires same { index.now.all.now ≡ recs_of keys.now }
    ensures { OnOk result (map told all.new.items ≡ map told all.old.items ++ attribute_by tables.now (recs_of keys.now) (place_of keys.now) (rec_of keys.now) row.now) }
{
    let Some(parent) = tables.token(keys.asm.scope.asm, row.parent) else {
        return Ok(());
    };
    push_with(alloc, keys, index, parent, row, all)?;
    Ok(())
}

/// Puts the attributes of an assembly at the end.
fn push_rows(
    alloc: Global,
    keys: &Keys<'_>,
    index: &TypeIndex<'_>,
    tables: &KeptTables,
    all: &mut Vec<Attribute>,
) -> Result<(), NoMemory>
    requires keys { IsKeys keys.now }
    requires index { IsIndex index.now }
    requires same { index.now.all.now ≡ recs_of keys.now }
    ensures { OnOk result (map told all.new.items ≡ map told all.old.items ++ flat_map (attribute_by tables.now (recs_of keys.now) (place_of keys.now) (rec_of keys.now)) (rec_of keys.now).custom_attribute) }
{
    let rec = keys.asm.scope.rec;
    for row in rec.custom_attribute.as_slice() {
        push_attribute(alloc, keys, index, tables, row, all)?;
    }
    Ok(())
}

/// Puts the attributes of the assembly in a place at the end.
fn push_attributes(
    alloc: Global,
    world: &WorldKeys<'_>,
    index: &TypeIndex<'_>,
    tables: &KeptTables,
    place: u32,
    rec: &AsmRec,
    all: &mut Vec<Attribute>,
) -> Result<(), NoMemory>
    requires world { IsWorldKeys world.now }
    requires index { IsIndex index.now }
    requires same { index.now.all.now ≡ all_of world.now.marker.now }
    requires here { slice_get (all_of world.now.marker.now) place ≡ Some rec.now }
    ensures { OnOk result (map told all.new.items ≡ map told all.old.items ++ attributes_in tables.now (all_of world.now.marker.now) place rec.now) }
{
    let Some(keys) = world.at(place) else {
        return Ok(());
    };
    push_rows(alloc, &keys, index, tables, all)?;
    Ok(())
}

/// In the order of their parents, those of one parent in the order in which they were.
fn in_order(mut all: Vec<Attribute>) -> Result<Vec<Attribute>, NoMemory>
    ensures { IfOk result (λ sorted. map told sorted.items ≡ in_key_order (map told all.items)) }
{
    all.sort_by_key(|x| u64::from(coded(CodedIndex::HasCustomAttribute, x.parent)))?;
    Ok(all)
}

/// The attributes of kept rows whose constructors the output names, in the order of their new parents. `index` is that of the assemblies
/// of the world.
pub fn kept_attributes(
    alloc: Global,
    world: &WorldKeys<'_>,
    index: &TypeIndex<'_>,
    tables: &KeptTables,
) -> Result<Vec<Attribute>, NoMemory>
    requires world { IsWorldKeys world.now }
    requires index { IsIndex index.now }
    requires same { index.now.all.now ≡ all_of world.now.marker.now }
    ensures { IfOk result (λ all. map told all.items ≡ attributes_by tables.now (all_of world.now.marker.now)) }
{
    let mut all = Vec::new(alloc);
    for (a, rec) in inputs(index.all).iter().enumerate() {
        let place = row_of(a)?;
        push_attributes(alloc, world, index, tables, place, rec, &mut all)?;
    }
    let sorted = in_order(all)?;
    Ok(sorted)
}
