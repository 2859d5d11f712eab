//! The EventMap rows of the output (II.22.12).

ghost use Rattle.std.specs.Prelude.{◌≡◌, ◌++◌, IfOk, OnOk};
ghost use Rattle.merge_plan.specs.Kept.{kept_by};
ghost use Rattle.merged_tables.specs.merged_maps.Maps.{event_map_of, event_maps_in, event_maps_by};

use crate::merged_maps::runs::{class, keeps_some, run_length};
use il_base::world_model::{AsmRec, EventMapRow};
use il_base::{NoMemory, Seq};
use merge_plan::kept_tables::tables::KeptTables;
use merge_plan::{KeptItems, Kind, inputs};
use std::alloc::Global;
use type_tables::member_search::counted::row_of;

/// Puts a row at the end, where its run keeps a row and its type is kept.
fn push_event_map(
    recs: &[AsmRec],
    kept: &KeptItems,
    tables: &KeptTables,
    asm: u32,
    rec: &AsmRec,
    row: &EventMapRow,
    rows: &mut Seq<EventMapRow>,
) -> Result<(), NoMemory>
    ensures { OnOk result (rows.new ≡ rows.old ++ event_map_of recs.now (kept_by kept.now) tables.now asm rec.now row.now) }
{
    let start = row.event_list_first.saturating_sub(1);
    let count = run_length(row.event_list_first, row.event_list_end, rec.event.len());
    let keeps = keeps_some(recs, kept, Kind::Events, asm, start, count)?;
    if !keeps {
        return Ok(());
    }
    let Some(parent) = class(tables, asm, row.parent) else {
        return Ok(());
    };
    let first = tables.items.events.run_at(asm, row.event_list_first)?;
    let end = tables.items.events.run_at(asm, row.event_list_end)?;
    rows.push(EventMapRow {
        parent,
        event_list_first: first,
        event_list_end: end,
    })?;
    Ok(())
}

/// Puts the rows of an assembly at the end.
fn push_event_maps(
    recs: &[AsmRec],
    kept: &KeptItems,
    tables: &KeptTables,
    asm: u32,
    rec: &AsmRec,
    rows: &mut Seq<EventMapRow>,
) -> Result<(), NoMemory>
    ensures { OnOk result (rows.new ≡ rows.old ++ event_maps_in recs.now (kept_by kept.now) tables.now asm rec.now) }
{
    for row in rec.event_map.as_slice() {
        push_event_map(recs, kept, tables, asm, rec, row, rows)?;
    }
    Ok(())
}

/// The rows of the output.
pub fn event_maps(
    alloc: Global,
    recs: &[AsmRec],
    kept: &KeptItems,
    tables: &KeptTables,
) -> Result<Seq<EventMapRow>, NoMemory>
    ensures { IfOk result (λ rows. rows ≡ event_maps_by recs.now (kept_by kept.now) tables.now) }
{
    let mut rows = Seq::new(alloc);
    for (a, rec) in inputs(recs).iter().enumerate() {
        let asm = row_of(a)?;
        push_event_maps(recs, kept, tables, asm, rec, &mut rows)?;
    }
    Ok(rows)
}
