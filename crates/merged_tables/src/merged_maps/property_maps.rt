//! The PropertyMap rows of the output (II.22.35).

ghost use Rattle.std.specs.Prelude.{◌≡◌, ◌++◌, IfOk, OnOk};
ghost use Rattle.merge_plan.specs.Kept.{kept_by};
ghost use Rattle.merged_tables.specs.merged_maps.Maps.{property_map_of, property_maps_in, property_maps_by};

use crate::merged_maps::runs::{class, keeps_some, run_length};
use il_base::world_model::{AsmRec, PropertyMapRow};
use il_base::{NoMemory, Seq};
use merge_plan::kept_tables::tables::KeptTables;
use merge_plan::{KeptItems, Kind, inputs};
use std::alloc::Global;
use type_tables::member_search::counted::row_of;

/// Puts a row at the end, where its run keeps a row and its type is kept.
fn push_property_map(
    recs: &[AsmRec],
    kept: &KeptItems,
    tables: &KeptTables,
    asm: u32,
    rec: &AsmRec,
    row: &PropertyMapRow,
    rows: &mut Seq<PropertyMapRow>,
) -> Result<(), NoMemory>
    ensures { OnOk result (rows.new ≡ rows.old ++ property_map_of recs.now (kept_by kept.now) tables.now asm rec.now row.now) }
{
    let start = row.property_list_first.saturating_sub(1);
    let count = run_length(
        row.property_list_first,
        row.property_list_end,
        rec.property.len(),
    );
    let keeps = keeps_some(recs, kept, Kind::Properties, asm, start, count)?;
    if !keeps {
        return Ok(());
    }
    let Some(parent) = class(tables, asm, row.parent) else {
        return Ok(());
    };
    let first = tables
        .items
        .properties
        .run_at(asm, row.property_list_first)?;
    let end = tables.items.properties.run_at(asm, row.property_list_end)?;
    rows.push(PropertyMapRow {
        parent,
        property_list_first: first,
        property_list_end: end,
    })?;
    Ok(())
}

/// Puts the rows of an assembly at the end.
fn push_property_maps(
    recs: &[AsmRec],
    kept: &KeptItems,
    tables: &KeptTables,
    asm: u32,
    rec: &AsmRec,
    rows: &mut Seq<PropertyMapRow>,
) -> Result<(), NoMemory>
    ensures { OnOk result (rows.new ≡ rows.old ++ property_maps_in recs.now (kept_by kept.now) tables.now asm rec.now) }
{
    for row in rec.property_map.as_slice() {
        push_property_map(recs, kept, tables, asm, rec, row, rows)?;
    }
    Ok(())
}

/// The rows of the output.
pub fn property_maps(
    alloc: Global,
    recs: &[AsmRec],
    kept: &KeptItems,
    tables: &KeptTables,
) -> Result<Seq<PropertyMapRow>, NoMemory>
    ensures { IfOk result (λ rows. rows ≡ property_maps_by recs.now (kept_by kept.now) tables.now) }
{
    let mut rows = Seq::new(alloc);
    for (a, rec) in inputs(recs).iter().enumerate() {
        let asm = row_of(a)?;
        push_property_maps(recs, kept, tables, asm, rec, &mut rows)?;
    }
    Ok(rows)
}
