//! The demands on rows: what their cells name is there.

ghost use Rattle.std.specs.Prelude.{◌≡◌, ◌+◌, ◌-◌, ◌<◌, ◌≤◌, ◌^◌, length, is_some};
ghost use Rattle.il_base.specs.declared.cli_format.stream.StreamName.TheVariants.{Strings};
ghost use Rattle.il_base.specs.cli_format.Columns.{columns_of};
ghost use Rattle.il_base.specs.cli_format.Demand.{Checked, each_below};
ghost use Rattle.il_base.specs.cli_format.Streams.{heap};
ghost use Rattle.il_base.specs.cli_format.Heaps.{blob_of};
ghost use Rattle.il_base.specs.cli_format.Tables.{rows_of, width, column_of, cell_number};
ghost use Rattle.il_base.specs.cli_format.Metadata.{names_item, why_not, cell_offset, cell_demands, row_demands, table_demands, tables_stream};

use crate::heaps::blob_item;
use crate::layout::column_at;
use crate::refuse::need;
use crate::tables::Tables;
use crate::texts::Texts;
use il_base::cli_format::{BAD_HEAP, Column, ROW_OUT_OF_RANGE, TablesError, columns};

impl<'a> Tables<'a> {
    /// The number in a cell of a row that is there: the row is counted from 1, the column from 0. It takes as many bytes as
    /// its column.
    pub fn number(&self, table: u8, row: u32, column: usize) -> u32
        requires table { table < 45 }
        requires first { 1 ≤ row }
        requires last { row ≤ rows_of (tables_stream self.now) table }
        ensures value { result ≡ cell_number (tables_stream self.now) table row column }
        ensures within { result < 256 ^ width (tables_stream self.now) (column_of table column) }
    {
        self.layout.cell_number(table, row, column)
    }

    /// The place of a cell in the file.
    #[tactic(auto, unfolding(il_base::specs::cli_format::Metadata::cell_offset, il_base::specs::cli_format::Metadata::tables_base))]
    pub(crate) fn offset(&self, base: u32, table: u8, row: u32, column: usize) -> usize
        requires small { base + length self.now < 2 ^ 32 }
        requires table { table < 45 }
        requires first { 1 ≤ row }
        requires last { row ≤ rows_of (tables_stream self.now) table }
        requires column { column < length (columns_of table) }
        ensures value { result ≡ cell_offset self.now base table row column }
        ensures within { result < 2 ^ 32 }
    {
        (base + self.start) as usize + self.layout.cell_place(table, row, column)
    }

    /// Whether what a number in a column names is there.
    #[tactic(auto, unfolding(il_base::specs::cli_format::Metadata::names_item))]
    fn has_item(&self, texts: &Texts, column: Column, n: u32) -> bool
        requires { texts.now ≡ heap self.now Strings }
        ensures { result ≡ names_item self.now column n }
    {
        match column {
            Column::U8 => true,
            Column::U16 => true,
            Column::U32 => true,
            Column::Text => texts.has(n),
            Column::Blob => has_blob(self.blobs, n as usize),
            Column::Guid => n as usize <= self.guids.len() / 16,
            Column::Index(t) => self.layout.has_row(t, n),
            Column::IndexOrNone(t) => n == 0 || self.layout.has_row(t, n),
            Column::Run(t) => 1 <= n && u64::from(n) <= u64::from(self.layout.rows(t)) + 1,
            Column::Coded(index) => self.layout.has_coded(index, n),
            Column::CodedOrNone(index) => n == 0 || self.layout.has_coded(index, n),
        }
    }

    /// What a cell names is there. The row is counted from 0.
    #[tactic(auto, unfolding(il_base::specs::cli_format::Metadata::cell_demands))]
    fn check_cell(
        &self,
        texts: &Texts,
        base: u32,
        table: u8,
        row: u32,
        column: usize,
    ) -> Result<(), TablesError>
        requires texts { texts.now ≡ heap self.now Strings }
        requires small { base + length self.now < 2 ^ 32 }
        requires table { table < 45 }
        requires row { row < rows_of (tables_stream self.now) table }
        requires next { row + 1 < 2 ^ 32 }
        requires column { column < length (columns_of table) }
        ensures { Checked result (cell_demands self.now base table row column) tt }
    {
        let kind = column_at(table, column);
        let n = self.number(table, row + 1, column);
        need(
            self.has_item(texts, kind, n),
            self.offset(base, table, row + 1, column),
            why(kind),
        )?;
        Ok(())
    }

    /// What the cells of a row name is there. The row is counted from 0.
    #[tactic(auto, using(il_base::proofs::lemmas::cli_format::Faults::faults), unfolding(il_base::specs::cli_format::Metadata::row_demands))]
    fn check_row(&self, texts: &Texts, base: u32, table: u8, row: u32) -> Result<(), TablesError>
        requires texts { texts.now ≡ heap self.now Strings }
        requires small { base + length self.now < 2 ^ 32 }
        requires table { table < 45 }
        requires row { row < rows_of (tables_stream self.now) table }
        requires next { row + 1 < 2 ^ 32 }
        ensures { Checked result (row_demands self.now base table row) tt }
    {
        for c in 0..columns(table).len() {
            match self.check_cell(texts, base, table, row, c) {
                Ok(()) => {}
                Err(e) => return Err(e),
            }
        }
        Ok(())
    }

    /// What the cells of a table name is there.
    #[tactic(auto, using(il_base::proofs::lemmas::cli_format::Faults::faults), unfolding(il_base::specs::cli_format::Metadata::table_demands))]
    fn check_table(&self, texts: &Texts, base: u32, table: u8) -> Result<(), TablesError>
        requires texts { texts.now ≡ heap self.now Strings }
        requires small { base + length self.now < 2 ^ 32 }
        requires table { table < 45 }
        ensures { Checked result (table_demands self.now base table) tt }
    {
        for r in 0..self.rows(table) {
            match self.check_row(texts, base, table, r) {
                Ok(()) => {}
                Err(e) => return Err(e),
            }
        }
        Ok(())
    }

    /// What the cells of all tables name is there.
    #[tactic(auto, using(il_base::proofs::lemmas::cli_format::Faults::faults))]
    pub(crate) fn check_cells(&self, texts: &Texts, base: u32) -> Result<(), TablesError>
        requires texts { texts.now ≡ heap self.now Strings }
        requires small { base + length self.now < 2 ^ 32 }
        ensures { Checked result (each_below (table_demands self.now base) 45) tt }
    {
        for t in 0..45u8 {
            match self.check_table(texts, base, t) {
                Ok(()) => {}
                Err(e) => return Err(e),
            }
        }
        Ok(())
    }
}

/// Whether a blob is at a place of a heap.
fn has_blob(heap: &[u8], at: usize) -> bool
    ensures { result ≡ is_some (blob_of heap.now at) }
{
    blob_item(heap, at).is_some()
}

/// Why a cell of a column is refused.
#[tactic(auto, unfolding(il_base::specs::cli_format::Metadata::why_not))]
fn why(column: Column) -> u8
    ensures { result ≡ why_not column }
{
    match column {
        Column::Text | Column::Blob | Column::Guid => BAD_HEAP,
        _ => ROW_OUT_OF_RANGE,
    }
}
