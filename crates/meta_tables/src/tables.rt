ghost use Rattle.std.specs.Prelude.{◌≡◌, ◌+◌, ◌-◌, ◌<◌, ◌≤◌, ◌^◌, ◌==◌, ◌&&◌, length, IfSome};
ghost use Rattle.std.specs.Option.{option_map};
ghost use Rattle.il_base.specs.declared.cli_format.stream.StreamName.TheVariants.{Strings, Blobs, UserStrings, Guids};
ghost use Rattle.il_base.specs.cli_format.Demand.{Checked, number};
ghost use Rattle.il_base.specs.cli_format.Streams.{heap};
ghost use Rattle.il_base.specs.cli_format.Heaps.{string_of, blob_of, user_string_of, guid_of};
ghost use Rattle.il_base.specs.cli_format.Tables.{cell_of};
ghost use Rattle.il_base.specs.cli_format.Metadata.{Read, form_demands, content_demands, heap_demands, tables_demands, tables_stream, tables_base, table_rows};
ghost use Rattle.meta_tables.specs.Places.{row_offset_of};

use crate::directory::Streams;
use crate::heaps::{blob_item, guid_item, text_item, user_item};
use crate::layout::Layout;
use crate::refuse::need;
use crate::texts::Texts;
use il_base::cli_format::{BAD_HEAP, StreamName, TablesError, u8_in};
use std::alloc::Global;
use std::marker::Model;

/// The tables and heaps of an assembly's metadata (II.22, II.24). Contracts see the bytes of the metadata.
#[derive(Debug, Drop)]
pub struct Tables<'a> {
    bytes: &'a [u8],
    /// Where the `#~` stream begins, from the root.
    pub(crate) start: u32,
    pub(crate) layout: Layout<'a>,
    strings: &'a [u8],
    pub(crate) blobs: &'a [u8],
    users: &'a [u8],
    pub(crate) guids: &'a [u8],
}

impl<'a> Model for Tables<'a> {
    ghost use Rattle.std.specs.Prelude.{◌≡◌, ◌+◌, ◌<◌, ◌≤◌, ◌^◌, ℕ, List, length};
    ghost use Rattle.il_base.specs.declared.cli_format.stream.StreamName.TheVariants as names;
    ghost use Rattle.il_base.specs.cli_format.Streams.{heap, heap_place};
    ghost use Rattle.il_base.specs.cli_format.Tables.{table_place};
    ghost use Rattle.il_base.specs.cli_format.Metadata.{tables_stream};

    ghost Value = { List ℕ };

    ghost view = { λ t. t.bytes.now };

    ghost invariant = { λ t. (length t.bytes.now < 2 ^ 32) × (t.start ≡ heap_place t.bytes.now names.Tables) × (t.start + length (tables_stream t.bytes.now) ≤ length t.bytes.now) × (t.layout ≡ tables_stream t.bytes.now) × (table_place (tables_stream t.bytes.now) 45 ≤ length (tables_stream t.bytes.now)) × (t.strings.now ≡ heap t.bytes.now names.Strings) × (t.blobs.now ≡ heap t.bytes.now names.Blobs) × (t.users.now ≡ heap t.bytes.now names.UserStrings) × (t.guids.now ≡ heap t.bytes.now names.Guids) };
}

impl<'a> Tables<'a> {
    /// The tables of the metadata, whose root is at the place `base` of the file. A refusal is that of the first
    /// demand that fails; `Rows` stands among them for a table with too many rows.
    #[tactic(auto, using(il_base::proofs::lemmas::cli_format::Faults::refusals), unfolding(il_base::specs::cli_format::Metadata::tables_demands))]
    pub fn read(alloc: Global, bytes: &'a [u8], base: u32) -> Result<Tables<'a>, TablesError>
        requires { base + length bytes.now < 2 ^ 32 }
        ensures { Read result (tables_demands bytes.now base) bytes.now }
    {
        let tables = read_form(alloc, bytes, base)?;
        tables.check_content(alloc, base)?;
        Ok(tables)
    }

    /// What the rows demand.
    #[tactic(auto, using(il_base::proofs::lemmas::cli_format::Faults::refusals), unfolding(il_base::specs::cli_format::Metadata::content_demands))]
    fn check_content(&self, alloc: Global, base: u32) -> Result<(), TablesError>
        requires { base + length self.now < 2 ^ 32 }
        ensures { Read result (content_demands self.now base) tt }
    {
        let texts = Texts::read(alloc, self.strings)?;
        self.check_cells(&texts, base)?;
        self.check_runs(base)?;
        self.check_sorted(base)?;
        Ok(())
    }

    /// How many rows a table has, by its number.
    pub fn rows(&self, table: u8) -> u32
        ensures { result ≡ table_rows self.now table }
    {
        self.layout.rows(table)
    }

    /// The number in a cell of a table: the row is counted from 1, the column from 0. None where there is no such cell.
    pub fn cell(&self, table: u8, row: u32, column: u8) -> Option<u32>
        ensures { result ≡ cell_of (tables_stream self.now) table row column }
    {
        self.layout.cell(table, row, column)
    }

    /// The place in the file of a row of a table, counted from 1, where the metadata's root is at `base`. None where the
    /// table doesn't have that row.
    #[tactic(auto, unfolding(il_base::specs::cli_format::Metadata::tables_base, il_base::specs::cli_format::Tables::names_row))]
    pub fn row_offset(&self, base: u32, table: u8, row: u32) -> Option<u32>
        requires { base + length self.now < 2 ^ 32 }
        ensures { result ≡ row_offset_of self.now base table row }
    {
        if table >= 45 || row < 1 || self.rows(table) < row {
            return None;
        }
        Some(base + self.start + self.layout.row_place(table, row) as u32)
    }

    /// The text at a place of `#Strings` (II.24.2.3). None where none begins there, or it isn't UTF-8.
    pub fn string(&self, at: u32) -> Option<&'a [u8]>
        ensures { option_map (λ b. b.now) result ≡ string_of (heap self.now Strings) at }
    {
        text_item(self.strings, at as usize)
    }

    /// The blob at a place of `#Blob`, without its length (II.24.2.4). None where none fits there.
    pub fn blob(&self, at: u32) -> Option<&'a [u8]>
        ensures value { option_map (λ b. b.now) result ≡ blob_of (heap self.now Blobs) at }
        ensures within { IfSome result (λ b. length b.now < 2 ^ 32) }
    {
        blob_item(self.blobs, at as usize)
    }

    /// The item at a place of `#US`, without its length and with its last byte (II.24.2.4). None where none fits there.
    pub fn user_string(&self, at: u32) -> Option<&'a [u8]>
        ensures { option_map (λ b. b.now) result ≡ user_string_of (heap self.now UserStrings) at }
    {
        user_item(self.users, at as usize)
    }

    /// The bytes of `#US` (II.24.2.4).
    pub fn user_strings(&self) -> &'a [u8]
        ensures { result.now ≡ heap self.now UserStrings }
    {
        self.users
    }

    /// The GUID with a number, from 1 (II.24.2.5). None for 0, and past the last one.
    pub fn guid(&self, at: u32) -> Option<&'a [u8]>
        ensures { option_map (λ b. b.now) result ≡ guid_of (heap self.now Guids) at }
    {
        guid_item(self.guids, at as usize)
    }
}

/// Tables whose form is as it should be.
#[tactic(auto, using(il_base::proofs::lemmas::cli_format::Faults::refusals), unfolding(il_base::specs::cli_format::Metadata::form_demands, il_base::specs::cli_format::Metadata::tables_base))]
fn read_form<'a>(alloc: Global, bytes: &'a [u8], base: u32) -> Result<Tables<'a>, TablesError>
    requires { base + length bytes.now < 2 ^ 32 }
    ensures { Read result (form_demands bytes.now base) bytes.now }
{
    let streams = Streams::read(alloc, bytes, base)?;
    let start = streams.place(StreamName::Tables);
    let layout = Layout::read(streams.heap(StreamName::Tables));
    layout.check_head(base + start)?;
    layout.check_rows(base + start)?;
    check_heaps(&streams, base)?;
    Ok(Tables {
        bytes,
        start,
        layout,
        strings: streams.heap(StreamName::Strings),
        blobs: streams.heap(StreamName::Blobs),
        users: streams.heap(StreamName::UserStrings),
        guids: streams.heap(StreamName::Guids),
    })
}

/// `#Strings` begins and ends with a zero, `#Blob` and `#US` begin with one, where they aren't empty.
#[tactic(auto, using(il_base::proofs::lemmas::cli_format::Faults::faults), unfolding(il_base::specs::cli_format::Metadata::heap_demands))]
fn check_heaps(streams: &Streams, base: u32) -> Result<(), TablesError>
    requires { base + length streams.now < 2 ^ 32 }
    ensures { Checked result (heap_demands streams.now base) tt }
{
    let strings = streams.heap(StreamName::Strings);
    let blobs = streams.heap(StreamName::Blobs);
    let users = streams.heap(StreamName::UserStrings);
    need(
        is_between_zeros(strings),
        (base + streams.place(StreamName::Strings)) as usize,
        BAD_HEAP,
    )?;
    need(
        u8_in(blobs, 0) == 0,
        (base + streams.place(StreamName::Blobs)) as usize,
        BAD_HEAP,
    )?;
    need(
        u8_in(users, 0) == 0,
        (base + streams.place(StreamName::UserStrings)) as usize,
        BAD_HEAP,
    )?;
    Ok(())
}

fn is_between_zeros(heap: &[u8]) -> bool
    ensures { result ≡ ((number 1 heap.now 0 == 0) && (number 1 heap.now (length heap.now - 1) == 0)) }
{
    u8_in(heap, 0) == 0 && u8_in(heap, heap.len().saturating_sub(1)) == 0
}
