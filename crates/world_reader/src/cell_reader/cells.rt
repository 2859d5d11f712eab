//! The cells of rows (II.22, II.24.2.6). Rows are counted from 1, columns from 0.

ghost use Rattle.std.specs.Prelude.{◌≡◌, ◌<◌, ◌≤◌, ◌/◌, ◌^◌, length, IfOk};
ghost use Rattle.std.specs.Option.{option_map};
ghost use Rattle.il_base.specs.declared.cli_format.column.Column.TheVariants as columns;
ghost use Rattle.il_base.specs.cli_format.Image.{metadata_of};
ghost use Rattle.il_base.specs.declared.cli_format.stream.StreamName.TheVariants.{UserStrings};
ghost use Rattle.il_base.specs.cli_format.Streams.{heap};
ghost use Rattle.il_base.specs.cli_format.Heaps.{user_string_of};
ghost use Rattle.il_base.specs.cli_format.Coded.{tag_bits_of};
ghost use Rattle.il_base.specs.cli_format.Tables.{column_of};
ghost use Rattle.il_base.specs.cli_format.Metadata.{most_rows};
ghost use Rattle.rules.specs.record_format.Cells as cells;
ghost use Rattle.world_reader.specs.cell_reader.Cells.{HasRow, HasColumn, FitsToken};

use crate::cell_reader::assembly::Assembly;
use il_base::cli_format::{CodedIndex, Column, tag_bits};
use il_base::{NoMemory, Seq, Text};
use meta_tables::{column_at, target};
use std::alloc::Global;

/// The token of a row of a table, 0 for none.
#[tactic(auto, unfolding(rules::specs::record_format::Cells::index_token))]
fn index_token(table: u8, row: u32) -> u32
    requires { row < 16777216 }
    ensures { result ≡ cells.index_token table row }
{
    if row == 0 {
        0
    } else {
        u32::from(table) * 0x100_0000 + row
    }
}

/// The token that a coded index has, 0 for none.
#[tactic(auto, unfolding(rules::specs::record_format::Cells::coded_token))]
fn coded_token(index: CodedIndex, n: u32) -> u32
    requires { n / 2 ^ tag_bits_of index < 16777216 }
    ensures { result ≡ cells.coded_token index n }
{
    if n == 0 {
        return 0;
    }
    let bits = tag_bits(index);
    let table = target(index, n % (1 << bits)).unwrap_or(0);
    u32::from(table) * 0x100_0000 + n / (1 << bits)
}

/// The token that a number in a column has.
fn token_by(column: Column, n: u32) -> u32
    requires { FitsToken column n }
    ensures { result ≡ cells.token_by column n }
{
    match column {
        Column::Index(table) => index_token(table, n),
        Column::IndexOrNone(table) => index_token(table, n),
        Column::Coded(index) => coded_token(index, n),
        Column::CodedOrNone(index) => coded_token(index, n),
        Column::U8 => n,
        Column::U16 => n,
        Column::U32 => n,
        Column::Text => n,
        Column::Blob => n,
        Column::Guid => n,
        Column::Run(_) => n,
    }
}

impl<'a> Assembly<'a> {
    /// How many rows a table has.
    #[tactic(auto, unfolding(rules::specs::record_format::Cells::count_of))]
    pub fn count(&self, table: u8) -> u32
        ensures value { result ≡ cells.count_of (metadata_of self.now) table }
        ensures few { result ≤ most_rows }
    {
        self.tables.rows(table)
    }

    /// The number in a cell.
    #[tactic(auto, unfolding(rules::specs::record_format::Cells::count_of, rules::specs::record_format::Cells::number_in))]
    pub fn word(&self, table: u8, column: usize, row: u32) -> u32
        requires { HasRow (metadata_of self.now) table row }
        ensures { result ≡ cells.number_in (metadata_of self.now) table column row }
    {
        self.tables.number(table, row, column)
    }

    /// The number in a cell of two bytes.
    #[tactic(auto, unfolding(rules::specs::record_format::Cells::count_of, rules::specs::record_format::Cells::number_in, il_base::specs::cli_format::Tables::width))]
    pub fn half(&self, table: u8, column: usize, row: u32) -> u16
        requires row { HasRow (metadata_of self.now) table row }
        requires column { column_of table column ≡ columns.U16 }
        ensures { result ≡ cells.number_in (metadata_of self.now) table column row }
    {
        self.tables.number(table, row, column) as u16
    }

    /// The number in a cell of one byte.
    #[tactic(auto, unfolding(rules::specs::record_format::Cells::count_of, rules::specs::record_format::Cells::number_in, il_base::specs::cli_format::Tables::width))]
    pub fn byte(&self, table: u8, column: usize, row: u32) -> u8
        requires row { HasRow (metadata_of self.now) table row }
        requires column { column_of table column ≡ columns.U8 }
        ensures { result ≡ cells.number_in (metadata_of self.now) table column row }
    {
        self.tables.number(table, row, column) as u8
    }

    /// The text that a cell names.
    #[tactic(auto, unfolding(rules::specs::record_format::Cells::text_in))]
    pub fn text(&self, alloc: Global, table: u8, column: usize, row: u32) -> Result<Text, NoMemory>
        requires { HasRow (metadata_of self.now) table row }
        ensures { IfOk result (λ text. text ≡ cells.text_in (metadata_of self.now) table column row) }
    {
        match self.tables.string(self.word(table, column, row)) {
            Some(text) => Seq::from_slice(alloc, text),
            None => Ok(Seq::new(alloc)),
        }
    }

    /// The blob that a cell names.
    #[tactic(auto, unfolding(rules::specs::record_format::Cells::blob_in))]
    pub fn blob(&self, table: u8, column: usize, row: u32) -> &'a [u8]
        requires { HasRow (metadata_of self.now) table row }
        ensures value { result.now ≡ cells.blob_in (metadata_of self.now) table column row }
        ensures small { length result.now < 2 ^ 32 }
    {
        match self.tables.blob(self.word(table, column, row)) {
            Some(blob) => blob,
            None => &[],
        }
    }

    /// A copy of the blob that a cell names.
    pub fn blob_copy(
        &self,
        alloc: Global,
        table: u8,
        column: usize,
        row: u32,
    ) -> Result<Text, NoMemory>
        requires { HasRow (metadata_of self.now) table row }
        ensures { IfOk result (λ blob. blob ≡ cells.blob_in (metadata_of self.now) table column row) }
    {
        Seq::from_slice(alloc, self.blob(table, column, row))
    }

    /// The GUID that a cell names, or no bytes.
    #[tactic(auto, unfolding(rules::specs::record_format::Cells::guid_in))]
    pub fn guid(&self, alloc: Global, table: u8, column: usize, row: u32) -> Result<Text, NoMemory>
        requires { HasRow (metadata_of self.now) table row }
        ensures { IfOk result (λ guid. guid ≡ cells.guid_in (metadata_of self.now) table column row) }
    {
        match self.tables.guid(self.word(table, column, row)) {
            Some(guid) => Seq::from_slice(alloc, guid),
            None => Ok(Seq::new(alloc)),
        }
    }

    /// The bytes of `#US` (II.24.2.4).
    pub fn user_strings(&self) -> &'a [u8]
        ensures { result.now ≡ heap (metadata_of self.now) UserStrings }
    {
        self.tables.user_strings()
    }

    /// The item at a place of `#US`, without its length and with its last byte (II.24.2.4). None where none fits there.
    pub fn user_string(&self, at: u32) -> Option<&'a [u8]>
        ensures { option_map (λ b. b.now) result ≡ user_string_of (heap (metadata_of self.now) UserStrings) at }
    {
        self.tables.user_string(at)
    }

    /// The token in a cell, 0 for none.
    #[tactic(auto, unfolding(rules::specs::record_format::Cells::token_in))]
    pub fn token(&self, table: u8, column: usize, row: u32) -> u32
        requires row { HasRow (metadata_of self.now) table row }
        requires column { HasColumn table column }
        ensures { result ≡ cells.token_in (metadata_of self.now) table column row }
    {
        let _tables = &self.tables;
        token_by(column_at(table, column), self.word(table, column, row))
    }

    /// The row past the last of the run that begins in a cell: where the run of the next row begins, or past the last row of
    /// `target`, the table of the runs.
    #[tactic(auto, unfolding(rules::specs::record_format::Cells::run_end))]
    pub fn run_end(&self, table: u8, column: usize, target: u8, row: u32) -> u32
        requires { HasRow (metadata_of self.now) table row }
        ensures { result ≡ cells.run_end (metadata_of self.now) table column target row }
    {
        if row == self.count(table) {
            self.count(target) + 1
        } else {
            self.word(table, column, row + 1)
        }
    }
}
