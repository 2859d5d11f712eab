//! The metadata of tables and user texts (II.24.2).

ghost use Rattle.std.specs.Prelude.{◌≡◌, ◌+◌, ◌≤◌, ◌<◌, ◌^◌, List, ℕ, length, map, nat_lt, if◌then◌else◌, IfOk, IsTrue, ◌↔◌};
ghost use Rattle.rules.specs.file_layout.Heaps as heaps;
ghost use Rattle.rules.specs.file_layout.TableStream as tables;
ghost use Rattle.rules.specs.file_layout.Metadata.{metadata_bytes};
ghost use Rattle.rules.specs.file_layout.Cells.{pools_of, numbers_of};
ghost use Rattle.rules.specs.file_layout.Laid.{sizes_of, streams_with};
ghost use Rattle.record_writer.specs.metadata_writer.Views.{AreStreamsShort, streams};
ghost use Rattle.record_writer.specs.metadata_writer.Gathered.{pools};
ghost use Rattle.record_writer.specs.metadata_writer.Written.{AreHeaps, IsPut};

use crate::metadata_writer::heaps::{Heap, blobs, guids, strings, users};
use crate::metadata_writer::metadata::{Streams, metadata};
use crate::metadata_writer::numbers::{Places, numbers_of};
use crate::metadata_writer::pools::{Pools, pools_of};
use crate::metadata_writer::tables::tables_stream;
use il_base::world_model::UserText;
use il_base::{NoMemory, Seq};
use rules::file_layout::Cell;
use std::alloc::Global;

/// The heaps.
#[derive(Drop)]
pub struct Heaps {
    pub strings: Heap,
    pub users: Vec<u8>,
    pub guids: Vec<u8>,
    pub blobs: Heap,
}

/// The heaps of items and user texts.
fn heaps_of(alloc: Global, items: &Pools, user: &[UserText]) -> Result<Heaps, NoMemory>
    ensures { IfOk result (λ h. AreHeaps h (pools items.now) (map (λ t. t.text) user.now)) }
{
    Ok(Heaps {
        strings: strings(alloc, &items.texts)?,
        users: users(alloc, user)?,
        guids: guids(alloc, &items.guids)?,
        blobs: blobs(alloc, &items.blobs)?,
    })
}

/// The bit of HeapSizes of a heap: set where it has 2^16 bytes or more.
fn size_bit(len: usize, bit: u8) -> u8
    requires { bit < 8 }
    ensures value { result ≡ (if nat_lt len 0x10000 then 0 else bit) }
    ensures small { result ≤ bit }
{
    if len < 0x1_0000 { 0 } else { bit }
}

/// HeapSizes, by the lengths of the heaps.
#[tactic(auto, unfolding(rules::specs::file_layout::Heaps::heap_bits))]
fn heap_bits(strings: &[u8], guids: &[u8], blobs: &[u8]) -> u8
    ensures { result ≡ heaps.heap_bits (length strings.now) (length guids.now) (length blobs.now) }
{
    size_bit(strings.len(), 1) + size_bit(guids.len(), 2) + size_bit(blobs.len(), 4)
}

/// The `#~` stream of tables whose items stand in heaps.
fn table_stream(
    alloc: Global,
    items: &Pools,
    heaps: &Heaps,
    cells: &[Seq<Seq<Cell>>],
) -> Result<Vec<u8>, NoMemory>
    requires count { length cells.now ≤ 64 }
    requires heaps { (user : List (List ℕ)) × AreHeaps heaps.now (pools items.now) user }
    ensures { IfOk result (λ v. v.items ≡ tables.tables_stream (sizes_of (pools items.now)) (numbers_of (pools items.now) cells.now)) }
{
    let places = Places {
        pools: items,
        strings: &heaps.strings.starts,
        blobs: &heaps.blobs.starts,
    };
    let numbers = numbers_of(alloc, &places, cells)?;
    let sizes = heap_bits(&heaps.strings.bytes, &heaps.guids, &heaps.blobs.bytes);
    let stream = tables_stream(alloc, sizes, numbers.as_slice())?;
    Ok(stream)
}

/// Whether a stream is so short that five of them have 61 bits: so they are in any memory.
fn is_short(stream: &[u8]) -> bool
    ensures { IsTrue result ↔ (length stream.now < 2 ^ 58) }
{
    stream.len() < 0x400_0000_0000_0000
}

/// Whether all streams are so short.
fn are_short(s: &Streams<'_>) -> bool
    ensures { IsTrue result → AreStreamsShort s.now }
{
    is_short(s.tables)
        && is_short(s.strings)
        && is_short(s.users)
        && is_short(s.guids)
        && is_short(s.blobs)
}

/// The metadata of some streams, where memory can have it.
fn joined(alloc: Global, s: &Streams<'_>) -> Result<Vec<u8>, NoMemory>
    ensures { IfOk result (λ v. v.items ≡ metadata_bytes (streams s.now)) }
{
    if !are_short(s) {
        return Err(NoMemory);
    }
    metadata(alloc, s)
}

/// The metadata of tables and user texts.
pub fn metadata_of(
    alloc: Global,
    cells: &[Seq<Seq<Cell>>],
    user: &[UserText],
) -> Result<Vec<u8>, NoMemory>
    requires { length cells.now ≤ 64 }
    ensures { IfOk result (λ v. IsPut v.items (metadata_bytes (streams_with (pools_of cells.now) cells.now (map (λ t. t.text) user.now)))) }
{
    let items = pools_of(alloc, cells)?;
    let heaps = heaps_of(alloc, &items, user)?;
    let tables = table_stream(alloc, &items, &heaps, cells)?;
    let streams = Streams {
        tables: &tables,
        strings: &heaps.strings.bytes,
        users: &heaps.users,
        guids: &heaps.guids,
        blobs: &heaps.blobs.bytes,
    };
    let metadata = joined(alloc, &streams)?;
    Ok(metadata)
}
