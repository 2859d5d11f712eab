ghost use Rattle.std.specs.Prelude.{◌≡◌, ℕ, ◌+◌, ◌*◌, ◌/◌, ◌^◌, ◌<◌, ◌≤◌, ◌==◌, ◌&&◌, nat_lt, bit_and, length, slice_index, ◌⊎◌, if◌then◌else◌};
ghost use Rattle.il_base.specs.cli_format.Columns.{columns_of};
ghost use Rattle.il_base.specs.cli_format.Demand.{number};
ghost use Rattle.il_base.specs.cli_format.Tables.{heap_sizes, is_present, count_place, rows_of, heap_width, index_width, coded_width, fewer, width, widths, row_width};

use il_base::cli_format::{
    CodedIndex, Column, columns, tag_bits, targets, u8_in, u16_in, u32_in, u64_in,
};
use std::marker::Model;

/// The head of the `#~` stream (II.24.2.6), which says how many rows each table has and how wide its columns are.
/// Contracts see the bytes of the stream.
#[derive(Debug, Drop)]
pub struct Counts<'a> {
    stream: &'a [u8],
    /// For each table how many rows it has.
    rows: [u32; 64],
    /// Where the row counts end.
    end: usize,
}

impl<'a> Model for Counts<'a> {
    ghost use Rattle.std.specs.Prelude.{◌≡◌, ◌≤◌, ℕ, List};
    ghost use Rattle.il_base.specs.cli_format.Tables.{count_place};
    ghost use Rattle.meta_tables.specs.Held.{AreRows};

    ghost Value = { List ℕ };

    ghost view = { λ c. c.stream.now };

    ghost invariant = { λ c. AreRows c.stream.now c.rows 64 × (c.end ≡ count_place c.stream.now 64) × (c.end ≤ 280) };
}

impl<'a> Counts<'a> {
    /// The row counts of a `#~` stream.
    #[tactic(auto, using(crate::proofs::Rows::counting))]
    pub fn read(stream: &'a [u8]) -> Counts<'a>
        ensures { result ≡ stream.now }
    {
        let valid = u64_in(stream, 8);
        let mut rows = [0; 64];
        let mut end = 24;
        for t in 0..64usize {
            let present = is_set(valid, t);
            rows[t] = row_count(stream, present, end);
            end += count_size(present);
        }
        Counts { stream, rows, end }
    }

    /// The bytes of the stream.
    pub fn stream(&self) -> &'a [u8]
        ensures { result.now ≡ self.now }
    {
        self.stream
    }

    /// Where the row counts end.
    pub fn end(&self) -> usize
        ensures value { result ≡ count_place self.now 64 }
        ensures within { result ≤ 280 }
    {
        self.end
    }

    /// How many rows a table has.
    #[tactic(auto, using(crate::proofs::Rows::none_past))]
    pub fn rows(&self, table: u8) -> u32
        ensures { result ≡ rows_of self.now table }
    {
        if table < 64 {
            self.rows[table as usize]
        } else {
            0
        }
    }

    /// Whether a table is present.
    #[tactic(auto, unfolding(il_base::specs::cli_format::Tables::is_present, il_base::specs::cli_format::Tables::valid_of))]
    pub fn is_here(&self, table: u8) -> bool
        ensures { result ≡ is_present self.now table }
    {
        is_set(u64_in(self.stream, 8), table as usize)
    }

    /// The bytes of a cell of a column: 1, 2 or 4.
    #[tactic(auto, unfolding(il_base::specs::cli_format::Tables::width))]
    pub fn width(&self, column: Column) -> u8
        ensures value { result ≡ width self.now column }
        ensures within { (result ≡ 1) ⊎ (result ≡ 2) ⊎ (result ≡ 4) }
    {
        match column {
            Column::U8 => 1,
            Column::U16 => 2,
            Column::U32 => 4,
            Column::Text => self.heap_width(1),
            Column::Guid => self.heap_width(2),
            Column::Blob => self.heap_width(4),
            Column::Index(t) => self.index_width(t),
            Column::IndexOrNone(t) => self.index_width(t),
            Column::Run(t) => self.index_width(t),
            Column::Coded(index) => self.coded_width(index),
            Column::CodedOrNone(index) => self.coded_width(index),
        }
    }

    /// The bytes of an index into a heap, by its bit in HeapSizes.
    #[tactic(auto, unfolding(il_base::specs::cli_format::Tables::heap_width, il_base::specs::cli_format::Tables::heap_sizes))]
    fn heap_width(&self, bit: u8) -> u8
        ensures value { result ≡ heap_width self.now bit }
        ensures within { (result ≡ 1) ⊎ (result ≡ 2) ⊎ (result ≡ 4) }
    {
        if u8_in(self.stream, 6) & bit == 0 {
            2
        } else {
            4
        }
    }

    /// The bytes of an index into a table.
    #[tactic(auto, unfolding(il_base::specs::cli_format::Tables::index_width))]
    fn index_width(&self, table: u8) -> u8
        ensures value { result ≡ index_width self.now table }
        ensures within { (result ≡ 1) ⊎ (result ≡ 2) ⊎ (result ≡ 4) }
    {
        if self.rows(table) < 0x1_0000 { 2 } else { 4 }
    }

    /// The bytes of a coded index.
    #[tactic(auto, unfolding(il_base::specs::cli_format::Tables::coded_width))]
    fn coded_width(&self, index: CodedIndex) -> u8
        ensures value { result ≡ coded_width self.now index }
        ensures within { (result ≡ 1) ⊎ (result ≡ 2) ⊎ (result ≡ 4) }
    {
        let limit = 1u32 << (16 - tag_bits(index));
        if self.are_fewer(limit, targets(index)) {
            2
        } else {
            4
        }
    }

    /// Whether each of the tables has fewer rows than a limit.
    #[tactic(auto, using(crate::proofs::Rows::comparing))]
    fn are_fewer(&self, limit: u32, tables: &[u8]) -> bool
        ensures { result ≡ fewer self.now limit tables.now }
    {
        for t in tables {
            if self.rows(*t) >= limit {
                return false;
            }
        }
        true
    }

    /// The bytes of cells of columns beside each other.
    #[tactic(auto, using(crate::proofs::Rows::adding))]
    pub fn widths(&self, columns: &[Column]) -> u32
        requires { length columns.now ≤ 9 }
        ensures value { result ≡ widths self.now columns.now }
        ensures within { result ≤ 36 }
    {
        let mut total: u32 = 0;
        for column in columns {
            total += u32::from(self.width(*column));
        }
        total
    }

    /// The bytes of a row of a table.
    #[tactic(auto, unfolding(il_base::specs::cli_format::Tables::row_width))]
    pub fn row_width(&self, table: u8) -> u32
        ensures value { result ≡ row_width self.now table }
        ensures within { result ≤ 36 }
    {
        self.widths(columns(table))
    }
}

fn is_set(valid: u64, t: usize) -> bool
    ensures { result ≡ (nat_lt t 64 && (bit_and (valid / 2 ^ t) 1 == 1)) }
{
    t < 64 && (valid >> t) & 1 == 1
}

fn row_count(stream: &[u8], present: bool, at: usize) -> u32
    ensures { result ≡ (if present then number 4 stream.now at else 0) }
{
    if present { u32_in(stream, at) } else { 0 }
}

fn count_size(present: bool) -> usize
    ensures value { result ≡ (if present then 4 else 0) }
    ensures within { result ≤ 4 }
{
    if present { 4 } else { 0 }
}

/// The number in the bytes of a cell, the lowest first.
pub fn number_in(bytes: &[u8], width: u8, at: usize) -> u32
    requires { (width ≡ 1) ⊎ (width ≡ 2) ⊎ (width ≡ 4) }
    ensures value { result ≡ number width bytes.now at }
    ensures within { result < 256 ^ width }
{
    match width {
        1 => u32::from(u8_in(bytes, at)),
        2 => u32::from(u16_in(bytes, at)),
        _ => u32_in(bytes, at),
    }
}
