//! The items that cells name, each once (II.24.2.3 to II.24.2.5).

ghost use Rattle.std.specs.Prelude.{◌≡◌, ℕ, List, [], ◌∷◌, ◌++◌, IfOk, OnOk};
ghost use Rattle.std.specs.List.{flat_map};
ghost use Rattle.rules.specs.file_layout.Interning.{added_all};
ghost use Rattle.rules.specs.file_layout.Cells as layout;
ghost use Rattle.record_writer.specs.metadata_writer.Gathered.{item_or_none, Gathers, pools};

use crate::metadata_writer::pool::Pool;
use il_base::{NoMemory, Seq, Text};
use rules::file_layout::Cell;
use std::alloc::Global;

/// The items of `#Strings`, `#Blob` and `#GUID`.
#[derive(Drop)]
pub struct Pools {
    pub texts: Pool,
    pub blobs: Pool,
    pub guids: Pool,
}

/// Puts an item into a pool, unless it is empty.
#[tactic(auto, unfolding(rules::specs::file_layout::Interning::added_all))]
fn add_item(alloc: Global, pool: &mut Pool, item: &Text) -> Result<(), NoMemory>
    ensures { OnOk result (pool.new ≡ added_all pool.old (item_or_none item.now)) }
{
    match item.as_slice() {
        [] => Ok(()),
        bytes => pool.add(alloc, bytes),
    }
}

/// Puts the item of a cell into its pool.
#[tactic(auto, unfolding(rules::specs::file_layout::Interning::added_all))]
fn add_cell(alloc: Global, pools: &mut Pools, cell: &Cell) -> Result<(), NoMemory>
    ensures { OnOk result (Gathers (λ items. items cell.now) pools.old pools.new) }
{
    match cell {
        Cell::Number(_) => Ok(()),
        Cell::Text(item) => add_item(alloc, &mut pools.texts, item),
        Cell::Blob(item) => add_item(alloc, &mut pools.blobs, item),
        Cell::Guid(item) => add_item(alloc, &mut pools.guids, item),
    }
}

/// Puts the items of a row into their pools.
fn add_row(alloc: Global, pools: &mut Pools, row: &[Cell]) -> Result<(), NoMemory>
    ensures { OnOk result (Gathers (λ items. flat_map items row.now) pools.old pools.new) }
{
    for cell in row {
        add_cell(alloc, pools, cell)?;
    }
    Ok(())
}

/// Puts the items of a table into their pools.
fn add_rows(alloc: Global, pools: &mut Pools, rows: &[Seq<Cell>]) -> Result<(), NoMemory>
    ensures { OnOk result (Gathers (λ items. flat_map (λ row. flat_map items row) rows.now) pools.old pools.new) }
{
    for row in rows {
        add_row(alloc, pools, row.as_slice())?;
    }
    Ok(())
}

/// Puts the items of tables into their pools.
fn add_tables(alloc: Global, pools: &mut Pools, tables: &[Seq<Seq<Cell>>]) -> Result<(), NoMemory>
    ensures { OnOk result (Gathers (λ items. layout.in_all items tables.now) pools.old pools.new) }
{
    for rows in tables {
        add_rows(alloc, pools, rows.as_slice())?;
    }
    Ok(())
}

/// The items of tables, each once.
#[tactic(auto, unfolding(rules::specs::file_layout::Cells::pools_of))]
pub fn pools_of(alloc: Global, tables: &[Seq<Seq<Cell>>]) -> Result<Pools, NoMemory>
    ensures { IfOk result (λ p. pools p ≡ layout.pools_of tables.now) }
{
    let mut pools = Pools {
        texts: Pool::new(alloc),
        blobs: Pool::new(alloc),
        guids: Pool::new(alloc),
    };
    add_tables(alloc, &mut pools, tables)?;
    Ok(pools)
}
