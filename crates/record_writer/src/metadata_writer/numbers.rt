//! The numbers that stand for the items of cells (II.24.2.6).

ghost use Rattle.std.specs.Prelude.{◌≡◌, ℕ, ◌+◌, List, [], get_or, map, IfOk};
ghost use Rattle.rules.specs.file_layout.Cells as layout;
ghost use Rattle.record_writer.specs.metadata_writer.Gathered.{pools};
ghost use Rattle.record_writer.specs.metadata_writer.Places.{index_among};
ghost use Rattle.record_writer.specs.metadata_writer.Numbers.{place_or_none, ArePlaces, rows_numbers};

use crate::metadata_writer::pool::Pool;
use crate::metadata_writer::pools::Pools;
use il_base::{NoMemory, Seq, Text};
use rules::file_layout::Cell;
use std::alloc::Global;

/// The places of the items of pools in their heaps.
#[derive(Drop)]
pub struct Places<'a> {
    pub pools: &'a Pools,
    /// Where each text begins, in order, and where the last one ends.
    pub strings: &'a [u64],
    /// The same of blobs.
    pub blobs: &'a [u64],
}

/// The place of an item among those that begin at some places, 0 for the empty one.
fn place(items: &Pool, starts: &[u64], item: &Text) -> u64
    ensures { result ≡ place_or_none (λ x. get_or starts.now (index_among items.now x) 0) item.now }
{
    match item.as_slice() {
        [] => 0,
        bytes => starts.get(items.index(bytes)).copied().unwrap_or(0),
    }
}

/// The number of a GUID, counted from 1, 0 for none.
fn guid_number(items: &Pool, guid: &Text) -> u64
    ensures { result ≡ place_or_none (λ x. 1 + index_among items.now x) guid.now }
{
    match guid.as_slice() {
        [] => 0,
        bytes => 1 + items.index(bytes) as u64,
    }
}

/// The number that stands in a cell.
fn number(places: &Places<'_>, cell: &Cell) -> u64
    requires { ArePlaces places.now }
    ensures { result ≡ layout.number_of (pools places.now.pools.now) cell.now }
{
    match cell {
        Cell::Number(n) => u64::from(*n),
        Cell::Text(text) => place(&places.pools.texts, places.strings, text),
        Cell::Blob(blob) => place(&places.pools.blobs, places.blobs, blob),
        Cell::Guid(guid) => guid_number(&places.pools.guids, guid),
    }
}

/// The numbers of a row.
fn row_numbers(alloc: Global, places: &Places<'_>, row: &[Cell]) -> Result<Seq<u64>, NoMemory>
    requires { ArePlaces places.now }
    ensures { IfOk result (λ ns. ns ≡ map (layout.number_of (pools places.now.pools.now)) row.now) }
{
    let mut numbers = Seq::new(alloc);
    for cell in row {
        numbers.push(number(places, cell))?;
    }
    Ok(numbers)
}

/// The numbers of a table.
#[tactic(auto, unfolding(crate::specs::metadata_writer::Numbers::rows_numbers))]
fn table_numbers(
    alloc: Global,
    places: &Places<'_>,
    rows: &[Seq<Cell>],
) -> Result<Seq<Seq<u64>>, NoMemory>
    requires { ArePlaces places.now }
    ensures { IfOk result (λ table. table ≡ rows_numbers (pools places.now.pools.now) rows.now) }
{
    let mut table = Seq::new(alloc);
    for row in rows {
        table.push(row_numbers(alloc, places, row.as_slice())?)?;
    }
    Ok(table)
}

/// The numbers of tables.
#[tactic(auto, unfolding(rules::specs::file_layout::Cells::numbers_of, crate::specs::metadata_writer::Numbers::rows_numbers))]
pub fn numbers_of(
    alloc: Global,
    places: &Places<'_>,
    tables: &[Seq<Seq<Cell>>],
) -> Result<Seq<Seq<Seq<u64>>>, NoMemory>
    requires { ArePlaces places.now }
    ensures { IfOk result (λ numbers. numbers ≡ layout.numbers_of (pools places.now.pools.now) tables.now) }
{
    let mut numbers = Seq::new(alloc);
    for rows in tables {
        numbers.push(table_numbers(alloc, places, rows.as_slice())?)?;
    }
    Ok(numbers)
}
