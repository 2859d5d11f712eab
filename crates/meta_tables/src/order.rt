//! The demands on the order of rows: runs that don't fall, and tables that are sorted.

ghost use Rattle.std.specs.Prelude.{◌≡◌, ◌+◌, ◌-◌, ◌<◌, ◌≤◌, ◌^◌, ◌||◌, not, nat_le, length};
ghost use Rattle.il_base.specs.cli_format.Columns.{columns_of, sort_key_of};
ghost use Rattle.il_base.specs.cli_format.Demand.{Checked, each_below};
ghost use Rattle.il_base.specs.cli_format.Tables.{rows_of, cell_number, column_of};
ghost use Rattle.il_base.specs.cli_format.Metadata.{is_run, in_order, run_demands, row_run_demands, table_run_demands, sort_demands, table_sort_demands, tables_stream};

use crate::layout::column_at;
use crate::refuse::need;
use crate::tables::Tables;
use il_base::cli_format::{
    Column, LIST_ORDER, SORT_ORDER, SortKey, TablesError, columns, sort_key,
};

impl<'a> Tables<'a> {
    /// Whether a run begins no earlier than that of the row above. Pairs of rows are counted from 0.
    #[tactic(auto, unfolding(il_base::specs::cli_format::Metadata::is_run))]
    fn has_run_in_order(&self, table: u8, row: u32, column: usize) -> bool
        requires table { table < 45 }
        requires row { row + 2 ≤ rows_of (tables_stream self.now) table }
        requires next { row + 2 < 2 ^ 32 }
        ensures { result ≡ (not (is_run (column_of table column)) || nat_le (cell_number (tables_stream self.now) table (row + 1) column) (cell_number (tables_stream self.now) table (row + 2) column)) }
    {
        match column_at(table, column) {
            Column::Run(_) => {
                self.number(table, row + 1, column) <= self.number(table, row + 2, column)
            }
            _ => true,
        }
    }

    #[tactic(auto, unfolding(il_base::specs::cli_format::Metadata::run_demands))]
    fn check_run(&self, base: u32, table: u8, row: u32, column: usize) -> Result<(), TablesError>
        requires small { base + length self.now < 2 ^ 32 }
        requires table { table < 45 }
        requires row { row + 2 ≤ rows_of (tables_stream self.now) table }
        requires next { row + 2 < 2 ^ 32 }
        requires column { column < length (columns_of table) }
        ensures { Checked result (run_demands self.now base table row column) tt }
    {
        let ordered = self.has_run_in_order(table, row, column);
        need(
            ordered,
            self.offset(base, table, row + 2, column),
            LIST_ORDER,
        )?;
        Ok(())
    }

    #[tactic(auto, using(il_base::proofs::lemmas::cli_format::Faults::faults), unfolding(il_base::specs::cli_format::Metadata::row_run_demands))]
    fn check_row_runs(&self, base: u32, table: u8, row: u32) -> Result<(), TablesError>
        requires small { base + length self.now < 2 ^ 32 }
        requires table { table < 45 }
        requires row { row + 2 ≤ rows_of (tables_stream self.now) table }
        requires next { row + 2 < 2 ^ 32 }
        ensures { Checked result (row_run_demands self.now base table row) tt }
    {
        for c in 0..columns(table).len() {
            match self.check_run(base, table, row, c) {
                Ok(()) => {}
                Err(e) => return Err(e),
            }
        }
        Ok(())
    }

    #[tactic(auto, using(il_base::proofs::lemmas::cli_format::Faults::faults), unfolding(il_base::specs::cli_format::Metadata::table_run_demands))]
    fn check_table_runs(&self, base: u32, table: u8) -> Result<(), TablesError>
        requires small { base + length self.now < 2 ^ 32 }
        requires table { table < 45 }
        ensures { Checked result (table_run_demands self.now base table) tt }
    {
        for r in 0..self.rows(table).saturating_sub(1) {
            match self.check_row_runs(base, table, r) {
                Ok(()) => {}
                Err(e) => return Err(e),
            }
        }
        Ok(())
    }

    /// The runs of no table fall from row to row.
    #[tactic(auto, using(il_base::proofs::lemmas::cli_format::Faults::faults))]
    pub(crate) fn check_runs(&self, base: u32) -> Result<(), TablesError>
        requires small { base + length self.now < 2 ^ 32 }
        ensures { Checked result (each_below (table_run_demands self.now base) 45) tt }
    {
        for t in 0..45u8 {
            match self.check_table_runs(base, t) {
                Ok(()) => {}
                Err(e) => return Err(e),
            }
        }
        Ok(())
    }

    /// Whether two rows are in the order of the table's sort key. Pairs of rows are counted from 0.
    #[tactic(auto, unfolding(il_base::specs::cli_format::Metadata::in_order))]
    fn is_in_order(&self, table: u8, row: u32) -> bool
        requires table { table < 45 }
        requires row { row + 2 ≤ rows_of (tables_stream self.now) table }
        requires next { row + 2 < 2 ^ 32 }
        ensures { result ≡ in_order (sort_key_of table) (cell_number (tables_stream self.now) table (row + 1)) (cell_number (tables_stream self.now) table (row + 2)) }
    {
        match sort_key(table) {
            SortKey::Unsorted => true,
            SortKey::ByOne(c) => {
                self.number(table, row + 1, c as usize) <= self.number(table, row + 2, c as usize)
            }
            SortKey::Strictly(c) => {
                self.number(table, row + 1, c as usize) < self.number(table, row + 2, c as usize)
            }
            SortKey::ByTwo(c, d) => {
                let above = self.number(table, row + 1, c as usize);
                let below = self.number(table, row + 2, c as usize);
                let inner = self.number(table, row + 1, d as usize)
                    <= self.number(table, row + 2, d as usize);
                above < below || (above == below && inner)
            }
        }
    }

    #[tactic(auto, unfolding(il_base::specs::cli_format::Metadata::sort_demands, il_base::specs::cli_format::Metadata::tables_base))]
    fn check_sorted_pair(&self, base: u32, table: u8, row: u32) -> Result<(), TablesError>
        requires small { base + length self.now < 2 ^ 32 }
        requires table { table < 45 }
        requires row { row + 2 ≤ rows_of (tables_stream self.now) table }
        requires next { row + 2 < 2 ^ 32 }
        ensures { Checked result (sort_demands self.now base table row) tt }
    {
        let ordered = self.is_in_order(table, row);
        let place = (base + self.start) as usize + self.layout.row_place(table, row + 2);
        need(ordered, place, SORT_ORDER)?;
        Ok(())
    }

    #[tactic(auto, using(il_base::proofs::lemmas::cli_format::Faults::faults), unfolding(il_base::specs::cli_format::Metadata::table_sort_demands))]
    fn check_table_sorted(&self, base: u32, table: u8) -> Result<(), TablesError>
        requires small { base + length self.now < 2 ^ 32 }
        requires table { table < 45 }
        ensures { Checked result (table_sort_demands self.now base table) tt }
    {
        for r in 0..self.rows(table).saturating_sub(1) {
            match self.check_sorted_pair(base, table, r) {
                Ok(()) => {}
                Err(e) => return Err(e),
            }
        }
        Ok(())
    }

    /// The sorted tables are sorted.
    #[tactic(auto, using(il_base::proofs::lemmas::cli_format::Faults::faults))]
    pub(crate) fn check_sorted(&self, base: u32) -> Result<(), TablesError>
        requires small { base + length self.now < 2 ^ 32 }
        ensures { Checked result (each_below (table_sort_demands self.now base) 45) tt }
    {
        for t in 0..45u8 {
            match self.check_table_sorted(base, t) {
                Ok(()) => {}
                Err(e) => return Err(e),
            }
        }
        Ok(())
    }
}
