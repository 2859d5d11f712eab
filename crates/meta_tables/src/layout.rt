ghost use Rattle.std.specs.Prelude.{◌≡◌, ℕ, ◌+◌, ◌*◌, ◌^◌, ◌<◌, ◌≤◌, ◌==◌, ◌&&◌, ◌||◌, not, nat_le, nat_lt, length, take, true, OnOk};
ghost use Rattle.il_base.specs.cli_format.Columns.{columns_of};
ghost use Rattle.il_base.specs.cli_format.Demand.{Checked, each_below};
ghost use Rattle.il_base.specs.cli_format.Tables.{rows_of, width, row_width, table_place, row_place, cell_place, cell_number, cell_of, column_of, has_cell, names_row, names_coded, target_of};
ghost use Rattle.il_base.specs.cli_format.Metadata.{head_demands, known_demands, limit_demands, single_demands, rows_demands};

use crate::counts::{Counts, number_in};
use crate::refuse::need;
use il_base::cli_format::{
    BAD_STREAM, CodedIndex, Column, ROW_OUT_OF_RANGE, TablesError, UNKNOWN_TABLE, columns,
    first_tag, tag_bits, targets, u8_in, u16_in,
};
use il_base::table;
use std::marker::Model;

/// The most rows that a table may have.
const MOST_ROWS: u32 = 1_048_576;

/// Where the tables of a `#~` stream are (II.24.2.6). Contracts see the bytes of the stream.
#[derive(Debug, Drop)]
pub struct Layout<'a> {
    counts: Counts<'a>,
    /// Where each table begins in the stream, and where the last one ends.
    places: [u64; 46],
}

impl<'a> Model for Layout<'a> {
    ghost use Rattle.std.specs.Prelude.{ℕ, List};
    ghost use Rattle.meta_tables.specs.Held.{ArePlaces};

    ghost Value = { List ℕ };

    ghost view = { λ l. l.counts };

    ghost invariant = { λ l. ArePlaces l.counts l.places 46 };
}

impl<'a> Layout<'a> {
    /// The places of the tables.
    #[tactic(auto, using(crate::proofs::Rows::placing))]
    pub fn read(stream: &'a [u8]) -> Layout<'a>
        ensures { result ≡ stream.now }
    {
        let counts = Counts::read(stream);
        let mut places = [0; 46];
        places[0] = counts.end() as u64;
        for t in 0..45u8 {
            let end = places[t as usize] + table_size(&counts, t);
            places[t as usize + 1] = end;
        }
        Layout { counts, places }
    }

    /// How many rows a table has.
    pub fn rows(&self, table: u8) -> u32
        ensures { result ≡ rows_of self.now table }
    {
        self.counts.rows(table)
    }

    /// Where a row of a table begins in the stream.
    #[tactic(auto, using(crate::proofs::Rows::row_reach), unfolding(il_base::specs::cli_format::Tables::row_place))]
    pub fn row_place(&self, table: u8, row: u32) -> usize
        requires small { length self.now < 2 ^ 32 }
        requires reach { table_place self.now 45 ≤ length self.now }
        requires table { table < 45 }
        requires first { 1 ≤ row }
        requires last { row ≤ rows_of self.now table }
        ensures value { result ≡ row_place self.now table row }
        ensures within { result + row_width self.now table ≤ length self.now }
    {
        let width = self.counts.row_width(table);
        self.places[table as usize] as usize + (row - 1) as usize * width as usize
    }

    /// Where a cell begins in the stream.
    #[tactic(auto, using(crate::proofs::Rows::cell_reach), unfolding(il_base::specs::cli_format::Tables::cell_place))]
    pub fn cell_place(&self, table: u8, row: u32, column: usize) -> usize
        requires small { length self.now < 2 ^ 32 }
        requires reach { table_place self.now 45 ≤ length self.now }
        requires table { table < 45 }
        requires first { 1 ≤ row }
        requires last { row ≤ rows_of self.now table }
        ensures value { result ≡ cell_place self.now table row column }
        ensures within { column < length (columns_of table) → result < length self.now }
    {
        let row = self.row_place(table, row);
        row + self.counts.widths(first_columns(table, column)) as usize
    }

    /// The number in a cell.
    #[tactic(auto, unfolding(il_base::specs::cli_format::Tables::cell_number))]
    pub fn cell_number(&self, table: u8, row: u32, column: usize) -> u32
        requires small { length self.now < 2 ^ 32 }
        requires reach { table_place self.now 45 ≤ length self.now }
        requires table { table < 45 }
        requires first { 1 ≤ row }
        requires last { row ≤ rows_of self.now table }
        ensures value { result ≡ cell_number self.now table row column }
        ensures within { result < 256 ^ width self.now (column_of table column) }
    {
        let place = self.cell_place(table, row, column);
        let width = self.counts.width(column_at(table, column));
        number_in(self.counts.stream(), width, place)
    }

    /// The number in a cell, where there is that row, from 1, and that column, from 0.
    #[tactic(auto, unfolding(il_base::specs::cli_format::Tables::cell_of, il_base::specs::cli_format::Tables::has_cell))]
    pub fn cell(&self, table: u8, row: u32, column: u8) -> Option<u32>
        requires small { length self.now < 2 ^ 32 }
        requires reach { table_place self.now 45 ≤ length self.now }
        ensures { result ≡ cell_of self.now table row column }
    {
        if row < 1 || self.rows(table) < row || !is_column(table, column) {
            return None;
        }
        Some(self.cell_number(table, row, column as usize))
    }

    /// Whether a number names a row of a table.
    #[tactic(auto, unfolding(il_base::specs::cli_format::Tables::names_row))]
    pub fn has_row(&self, table: u8, row: u32) -> bool
        ensures { result ≡ names_row self.now table row }
    {
        1 <= row && row <= self.rows(table)
    }

    /// Whether a coded index names a row of one of its tables (II.24.2.6).
    #[tactic(auto, unfolding(il_base::specs::cli_format::Tables::names_coded))]
    pub fn has_coded(&self, index: CodedIndex, n: u32) -> bool
        ensures { result ≡ names_coded self.now index n }
    {
        let bits = tag_bits(index);
        match target(index, n % (1 << bits)) {
            Some(table) => self.has_row(table, n / (1 << bits)),
            None => false,
        }
    }

    /// The stream begins as it should, and its rows lie in it.
    #[tactic(auto, using(il_base::proofs::lemmas::cli_format::Faults::faults, crate::proofs::Rows::placing), unfolding(il_base::specs::cli_format::Metadata::head_demands, il_base::specs::cli_format::Tables::heap_sizes))]
    pub fn check_head(&self, base: u32) -> Result<(), TablesError>
        requires { base + length self.now < 2 ^ 32 }
        ensures checked { Checked result (head_demands self.now base) tt }
        ensures within { OnOk result (table_place self.now 45 ≤ length self.now) }
        ensures head { OnOk result (24 ≤ length self.now) }
    {
        let stream = self.counts.stream();
        let base = base as usize;
        need(24 <= stream.len(), base, BAD_STREAM)?;
        need(u16_in(stream, 4) == 2, base, BAD_STREAM)?;
        need(u8_in(stream, 6) < 8, base, BAD_STREAM)?;
        need(self.counts.end() <= stream.len(), base, BAD_STREAM)?;
        need(self.end() <= stream.len() as u64, base, BAD_STREAM)?;
        Ok(())
    }

    /// Where the last table ends.
    fn end(&self) -> u64
        ensures { result ≡ table_place self.now 45 }
    {
        self.places[45]
    }

    /// The tables that are present are known, and have as many rows as they may have.
    #[tactic(auto, using(il_base::proofs::lemmas::cli_format::Faults::faults), unfolding(il_base::specs::cli_format::Metadata::rows_demands))]
    pub fn check_rows(&self, base: u32) -> Result<(), TablesError>
        requires { base + 8 < 2 ^ 32 }
        ensures { Checked result (rows_demands self.now base) tt }
    {
        self.check_known(base)?;
        self.check_limits()?;
        self.check_single(base)?;
        Ok(())
    }

    /// The tables that are present are those of II.22.
    #[tactic(auto, using(il_base::proofs::lemmas::cli_format::Faults::faults))]
    fn check_known(&self, base: u32) -> Result<(), TablesError>
        requires { base + 8 < 2 ^ 32 }
        ensures { Checked result (each_below (known_demands self.now base) 64) tt }
    {
        for t in 0..64u8 {
            match self.check_table(base, t) {
                Ok(()) => {}
                Err(e) => return Err(e),
            }
        }
        Ok(())
    }

    #[tactic(auto, unfolding(il_base::specs::cli_format::Metadata::known_demands))]
    fn check_table(&self, base: u32, table: u8) -> Result<(), TablesError>
        requires { base + 8 < 2 ^ 32 }
        ensures { Checked result (known_demands self.now base table) tt }
    {
        let known = is_known(self.counts.is_here(table), table);
        need(known, base as usize + 8, UNKNOWN_TABLE)?;
        Ok(())
    }

    /// No table has too many rows.
    #[tactic(auto, using(il_base::proofs::lemmas::cli_format::Faults::faults))]
    fn check_limits(&self) -> Result<(), TablesError>
        ensures { Checked result (each_below (limit_demands self.now) 45) tt }
    {
        for t in 0..45u8 {
            match self.check_limit(t) {
                Ok(()) => {}
                Err(e) => return Err(e),
            }
        }
        Ok(())
    }

    #[tactic(auto, unfolding(il_base::specs::cli_format::Metadata::limit_demands, il_base::specs::cli_format::Demand::demand, il_base::specs::cli_format::Demand::first_fault))]
    fn check_limit(&self, table: u8) -> Result<(), TablesError>
        ensures { Checked result (limit_demands self.now table) tt }
    {
        let rows = self.rows(table);
        if rows > MOST_ROWS {
            return Err(TablesError::Rows {
                found: u64::from(rows),
            });
        }
        Ok(())
    }

    /// There are one Module row, one Assembly row, and a TypeDef row.
    #[tactic(auto, unfolding(il_base::specs::cli_format::Metadata::single_demands))]
    fn check_single(&self, base: u32) -> Result<(), TablesError>
        requires { base + 8 < 2 ^ 32 }
        ensures { Checked result (single_demands self.now base) tt }
    {
        let enough = are_enough(
            self.rows(table::MODULE),
            self.rows(table::ASSEMBLY),
            self.rows(table::TYPE_DEF),
        );
        need(enough, base as usize + 8, ROW_OUT_OF_RANGE)?;
        Ok(())
    }
}

/// The table that a tag of a coded index names (II.24.2.6). None for a tag that names none.
#[tactic(auto, unfolding(il_base::specs::cli_format::Tables::target_of))]
pub fn target(index: CodedIndex, tag: u32) -> Option<u8>
    ensures { result ≡ target_of index tag }
{
    let first = u32::from(first_tag(index));
    if tag < first {
        return None;
    }
    targets(index).get((tag - first) as usize).copied()
}

fn are_enough(modules: u32, assemblies: u32, types: u32) -> bool
    ensures { result ≡ ((modules == 1) && (assemblies == 1) && nat_le 1 types) }
{
    modules == 1 && assemblies == 1 && 1 <= types
}

fn is_known(present: bool, table: u8) -> bool
    ensures { result ≡ (not present || nat_lt 0 (length (columns_of table))) }
{
    !present || !columns(table).is_empty()
}

/// Whether a table has a column of that number.
#[tactic(auto, using(crate::proofs::Rows::none_known))]
fn is_column(table: u8, column: u8) -> bool
    ensures value { result ≡ nat_lt column (length (columns_of table)) }
    ensures table { result ≡ true → table < 45 }
{
    table < 45 && (column as usize) < columns(table).len()
}

/// A column of a table, both by their numbers from 0; one byte where the table doesn't have it.
#[tactic(auto, using(crate::proofs::Rows::picking), unfolding(il_base::specs::cli_format::Tables::column_of))]
pub fn column_at(table: u8, column: usize) -> Column
    ensures { result ≡ column_of table column }
{
    let columns = columns(table);
    if column < columns.len() {
        columns[column]
    } else {
        Column::U8
    }
}

/// The columns of a table before one.
#[tactic(auto, using(crate::proofs::Lists::take_both))]
fn first_columns(table: u8, column: usize) -> &'static [Column]
    ensures value { result.now ≡ take column (columns_of table) }
    ensures within { length result.now ≤ 9 }
{
    let columns = columns(table);
    if column < columns.len() {
        &columns[..column]
    } else {
        columns
    }
}

/// The bytes of a table.
#[tactic(auto, using(crate::proofs::Rows::small_product))]
fn table_size(counts: &Counts, table: u8) -> u64
    ensures value { result ≡ rows_of counts.now table * row_width counts.now table }
    ensures within { result ≤ 2 ^ 38 }
{
    u64::from(counts.rows(table)) * u64::from(counts.row_width(table))
}
