ghost use Rattle.std.specs.Prelude.{◌≡◌, ◌+◌, ◌<◌, ◌≤◌, ◌^◌, ◌++◌, length, None};
ghost use Rattle.il_base.specs.cli_format.Demand.{first_fault, each_below};
ghost use Rattle.il_base.specs.cli_format.Streams.{version_length, stream_count, header_place, streams_before, streams_of, stream_called, heap, heap_place, heap_size};
ghost use Rattle.il_base.specs.cli_format.Metadata.{Read, root_demands, nth_stream_demands, streams_demands};

use crate::refuse::{need, part};
use crate::streams::{header_length, is_same, no_bytes, read_root, read_stream, take_bytes};
use il_base::Seq;
use il_base::cli_format::{BAD_STREAM, Stream, StreamName, TablesError, u16_in};
use std::alloc::Global;
use std::marker::Model;

/// The streams of the metadata (II.24.2.2). Contracts see the bytes of the metadata.
#[derive(Debug, Drop)]
pub struct Streams<'a> {
    bytes: &'a [u8],
    list: Seq<Stream>,
}

impl<'a> Model for Streams<'a> {
    ghost use Rattle.std.specs.Prelude.{◌≡◌, ℕ, List};
    ghost use Rattle.il_base.specs.cli_format.Streams.{streams_of};
    ghost use Rattle.meta_tables.specs.Held.{StreamsWithin};

    ghost Value = { List ℕ };

    ghost view = { λ s. s.bytes.now };

    ghost invariant = { λ s. (s.list ≡ streams_of s.bytes.now) × StreamsWithin s.bytes.now };
}

impl<'a> Streams<'a> {
    /// The streams after the root, where they and the tables among them are as they should be.
    #[tactic(auto, using(il_base::proofs::lemmas::cli_format::Faults::refusals, crate::proofs::Beside::all_within), unfolding(il_base::specs::cli_format::Metadata::streams_demands))]
    pub fn read(alloc: Global, bytes: &'a [u8], base: u32) -> Result<Streams<'a>, TablesError>
        requires { base + length bytes.now < 2 ^ 32 }
        ensures { Read result (root_demands bytes.now base ++ streams_demands bytes.now base) bytes.now }
    {
        let version = read_root(bytes, base)?;
        let list = read_list(alloc, bytes, base, version)?;
        let tables = find(list.as_slice(), StreamName::Tables);
        need(tables.is_some(), base as usize, BAD_STREAM)?;
        Ok(Streams { bytes, list })
    }

    /// Where the stream of a name begins, from the root, and 0 where there is none.
    #[tactic(auto, unfolding(il_base::specs::cli_format::Streams::heap_place, il_base::specs::cli_format::Streams::heap_size))]
    pub fn place(&self, name: StreamName) -> u32
        ensures value { result ≡ heap_place self.now name }
        ensures within { result + heap_size self.now name ≤ length self.now }
    {
        match find(self.list.as_slice(), name) {
            Some(stream) => stream.offset,
            None => 0,
        }
    }

    /// The bytes of the stream of a name; there are none where it is missing.
    #[tactic(auto, unfolding(il_base::specs::cli_format::Streams::heap, il_base::specs::cli_format::Streams::heap_place, il_base::specs::cli_format::Streams::heap_size))]
    pub fn heap(&self, name: StreamName) -> &'a [u8]
        ensures value { result.now ≡ heap self.now name }
        ensures size { length result.now ≡ heap_size self.now name }
    {
        match find(self.list.as_slice(), name) {
            Some(stream) => part(self.bytes, stream.offset as usize, stream.size as usize),
            None => &[],
        }
    }
}

/// The first stream of a name.
#[tactic(auto, using(crate::proofs::Beside::calling))]
fn find(list: &[Stream], name: StreamName) -> Option<Stream>
    ensures { result ≡ stream_called name list.now }
{
    for stream in list {
        if is_same(stream.name, name) {
            return Some(*stream);
        }
    }
    None
}

/// The streams, in order of their headers.
#[tactic(auto, using(il_base::proofs::lemmas::cli_format::Faults::refusals, crate::proofs::Beside::listing, crate::proofs::Taken::taken_more), unfolding(il_base::specs::cli_format::Metadata::nth_stream_demands, il_base::specs::cli_format::Streams::nth_stream, il_base::specs::cli_format::Streams::stream_count, il_base::specs::cli_format::Streams::streams_of))]
fn read_list(
    alloc: Global,
    bytes: &[u8],
    base: u32,
    version: u32,
) -> Result<Seq<Stream>, TablesError>
    requires small { base + length bytes.now < 2 ^ 32 }
    requires version { version ≡ version_length bytes.now }
    requires reach { 20 + version ≤ length bytes.now }
    ensures { Read result (each_below (nth_stream_demands bytes.now base) (stream_count bytes.now)) (streams_of bytes.now) }
{
    let mut list = Seq::new(alloc);
    let mut taken = no_bytes(alloc, bytes.len())?;
    let mut at = 20 + version as usize;
    let count = u16_in(bytes, 18 + version as usize);
    for _ in 0..count {
        let stream = match read_stream(bytes, base, at, list.as_slice(), &taken) {
            Ok(stream) => stream,
            Err(e) => return Err(e),
        };
        take_bytes(&stream, &mut taken);
        match list.push(stream) {
            Ok(()) => {}
            Err(e) => return Err(e.into()),
        }
        at += header_length(bytes, at);
    }
    Ok(list)
}
