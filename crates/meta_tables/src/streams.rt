ghost use Rattle.std.specs.Prelude.{◌≡◌, ◌+◌, ◌*◌, ◌-◌, ◌<◌, ◌≤◌, ◌^◌, ◌++◌, ◌%◌, ◌==◌, ◌&&◌, nat_le, length, take, drop, IfOk, OnOk, slice_index_or, ℕ, [], true, false};
ghost use Rattle.il_base.specs.cli_format.Demand.{Checked};
ghost use Rattle.il_base.specs.cli_format.Streams.{version_length, stream_count, streams_place, name_length, padding_length, header_size, stream_at, zeros, agrees, apart, repeats, streams_of, name_number};
ghost use Rattle.il_base.specs.cli_format.Metadata.{Read, root_demands, header_fits, stream_fits, stream_demands, nth_stream_demands};
ghost use Rattle.meta_tables.specs.Held.{AreTaken, clear, covers, fresh, free_of};

use crate::refuse::{find_zero, need, part};
use il_base::cli_format::{
    BAD_ROOT, BAD_STREAM, Stream, StreamName, TablesError, stream_name, u16_in, u32_in,
};
use std::alloc::{AllocError, Global};

/// The number of bytes of the version text in the root (II.24.2.1).
#[tactic(auto, using(il_base::proofs::lemmas::cli_format::Faults::faults), unfolding(il_base::specs::cli_format::Metadata::root_demands, il_base::specs::cli_format::Streams::version_length))]
pub fn read_root(bytes: &[u8], base: u32) -> Result<u32, TablesError>
    requires { base + length bytes.now < 2 ^ 32 }
    ensures checked { Checked result (root_demands bytes.now base) (version_length bytes.now) }
    ensures within { IfOk result (λ n. 20 + n ≤ length bytes.now) }
{
    let base = base as usize;
    need(u32_in(bytes, 0) == 0x424a_5342, base, BAD_ROOT)?;
    let version = u32_in(bytes, 12);
    need(is_version_length(version), base, BAD_ROOT)?;
    need(
        20 + u64::from(version) <= bytes.len() as u64,
        base,
        BAD_ROOT,
    )?;
    Ok(version)
}

fn is_version_length(n: u32) -> bool
    ensures { result ≡ ((n % 4 == 0) && nat_le n 256) }
{
    n % 4 == 0 && n <= 256
}

/// The length of the name in a stream's header; more than 32 bytes aren't looked at.
#[tactic(auto, unfolding(il_base::specs::cli_format::Streams::name_length))]
fn name_size(bytes: &[u8], at: usize) -> usize
    requires { at ≤ length bytes.now }
    ensures value { result ≡ name_length bytes.now at }
    ensures within { result ≤ 33 }
{
    let window = window(bytes, at);
    match find_zero(window) {
        Some(n) => n,
        None => window.len(),
    }
}

/// What is looked at of the name in a stream's header.
fn window(bytes: &[u8], at: usize) -> &[u8]
    requires { at ≤ length bytes.now }
    ensures value { result.now ≡ take 33 (drop (at + 8) bytes.now) }
    ensures within { length result.now ≤ 33 }
{
    if bytes.len() - at < 8 {
        return &[];
    }
    let rest = &bytes[at + 8..];
    if rest.len() < 33 {
        return rest;
    }
    &rest[..33]
}

/// How many zeros stand after a name of a length: at least one, and up to the next multiple of 4.
#[tactic(auto, unfolding(il_base::specs::cli_format::Streams::padding_length))]
fn padding(bytes: &[u8], at: usize, name: usize) -> usize
    requires { name ≡ name_length bytes.now at }
    ensures value { result ≡ padding_length bytes.now at }
    ensures within { result ≤ 4 }
{
    let _bytes = bytes;
    4 - name % 4
}

/// Whether all bytes are zeros.
#[tactic(auto, using(crate::proofs::Lists::zeroing))]
fn are_zeros(bytes: &[u8]) -> bool
    ensures { result ≡ zeros bytes.now }
{
    for b in bytes {
        if *b != 0 {
            return false;
        }
    }
    true
}

/// The bytes of a stream's header.
#[tactic(auto, unfolding(il_base::specs::cli_format::Streams::header_size))]
pub fn header_length(bytes: &[u8], at: usize) -> usize
    requires { at ≤ length bytes.now }
    ensures value { result ≡ header_size bytes.now at }
    ensures within { result ≤ 45 }
{
    let name = name_size(bytes, at);
    8 + name + padding(bytes, at, name)
}

/// A stream's header lies in the metadata, its name has at most 32 bytes, and zeros stand after it.
#[tactic(auto, unfolding(il_base::specs::cli_format::Metadata::header_fits, il_base::specs::cli_format::Streams::header_size))]
fn fits_header(bytes: &[u8], at: usize) -> bool
    requires { at ≤ length bytes.now }
    ensures { result ≡ header_fits bytes.now at }
{
    let name = name_size(bytes, at);
    let zeros = padding(bytes, at, name);
    if bytes.len() - at < 8 + name + zeros {
        return false;
    }
    name <= 32 && are_zeros(part(bytes, at + 8 + name, zeros))
}

/// The stream whose header is at a place.
#[tactic(auto, unfolding(il_base::specs::cli_format::Streams::stream_at, il_base::specs::cli_format::Streams::header_size))]
fn stream_in(bytes: &[u8], at: usize) -> Stream
    requires { at + header_size bytes.now at ≤ length bytes.now }
    ensures { result ≡ stream_at bytes.now at }
{
    let name = name_size(bytes, at);
    Stream {
        name: stream_name(part(bytes, at + 8, name)),
        offset: u32_in(bytes, at),
        size: u32_in(bytes, at + 4),
    }
}

/// Whether two streams have the same name, one of those that II.24.2.2 describes.
#[tactic(auto, unfolding(il_base::specs::cli_format::Streams::repeats, il_base::specs::cli_format::Streams::name_number))]
fn repeats_name(s: &Stream, t: &Stream) -> bool
    ensures { result ≡ repeats s.now t.now }
{
    is_same(s.name, t.name) && (s.name as u8) < 5
}

/// Whether two names are the same.
#[tactic(auto, unfolding(il_base::specs::cli_format::Streams::name_number))]
pub fn is_same(a: StreamName, b: StreamName) -> bool
    ensures { result ≡ (name_number a == name_number b) }
{
    a as u8 == b as u8
}

/// Whether no flag is set.
#[tactic(auto, using(crate::proofs::Taken::clearing))]
fn is_clear(flags: &[bool]) -> bool
    ensures { result ≡ clear flags.now }
{
    for flag in flags {
        if *flag {
            return false;
        }
    }
    true
}

/// Whether a stream repeats the name of none of the earlier ones. Only a name that II.24.2.2 describes is looked for, so
/// no more than one stream of each such name looks at the others.
#[tactic(auto, using(crate::proofs::Taken::freshness))]
fn is_fresh(s: &Stream, earlier: &[Stream]) -> bool
    ensures { result ≡ fresh s.now earlier.now }
{
    if number_of(s.name) >= 5 {
        return true;
    }
    for t in earlier {
        if repeats_name(t, s) {
            return false;
        }
    }
    true
}

/// The number of a name, below 5 where II.24.2.2 describes it.
#[tactic(auto, unfolding(il_base::specs::cli_format::Streams::name_number))]
fn number_of(name: StreamName) -> u8
    ensures { result ≡ name_number name }
{
    name as u8
}

/// The flags of the bytes of a stream.
fn flags_of<'a>(s: &Stream, taken: &'a [bool]) -> &'a [bool]
    requires { s.now.offset + s.now.size ≤ length taken.now }
    ensures { result.now ≡ take s.now.size (drop s.now.offset taken.now) }
{
    &taken[s.offset as usize..][..s.size as usize]
}

/// Whether a stream overlaps none of the earlier ones, whose bytes are taken.
fn is_free(s: &Stream, earlier: &[Stream], taken: &[bool]) -> bool
    requires taken { AreTaken earlier.now taken.now }
    requires within { s.now.offset + s.now.size ≤ length taken.now }
    ensures { result ≡ free_of s.now earlier.now }
{
    let _earlier = earlier;
    is_clear(flags_of(s, taken))
}

/// Whether a stream overlaps none of the earlier ones, whose bytes are taken, and repeats the name of none.
#[tactic(auto, using(crate::proofs::Taken::agrees_split))]
fn agrees_with(s: &Stream, earlier: &[Stream], taken: &[bool]) -> bool
    requires taken { AreTaken earlier.now taken.now }
    requires within { s.now.offset + s.now.size ≤ length taken.now }
    ensures { result ≡ agrees s.now earlier.now }
{
    is_free(s, earlier, taken) && is_fresh(s, earlier)
}

/// Flags for bytes of which none is taken.
#[tactic(auto, using(crate::proofs::Taken::none_taken))]
pub fn no_bytes(alloc: Global, len: usize) -> Result<Vec<bool>, AllocError>
    ensures size { IfOk result (λ v. length v.items ≡ len) }
    ensures none { IfOk result (λ v. AreTaken [] v.items) }
{
    let flags = vec![in alloc; false; len]?;
    Ok(flags)
}

/// Takes the bytes of a stream.
#[tactic(auto, using(crate::proofs::Taken::taking))]
pub fn take_bytes(s: &Stream, taken: &mut Vec<bool>)
    requires within { s.now.offset + s.now.size ≤ length taken.old.items }
    ensures size { length taken.new.items ≡ length taken.old.items }
    ensures inside { (k : ℕ) → covers s.now k ≡ true → slice_index_or taken.new.items k false ≡ true }
    ensures outside { (k : ℕ) → covers s.now k ≡ false → slice_index_or taken.new.items k false ≡ slice_index_or taken.old.items k false }
{
    let from = s.offset as usize;
    for k in from..from + s.size as usize {
        taken[k] = true;
    }
}

/// A stream lies in the metadata, stands beside the earlier ones, and isn't `#-`.
#[tactic(auto, unfolding(il_base::specs::cli_format::Metadata::stream_fits))]
fn fits_stream(bytes: &[u8], s: &Stream, earlier: &[Stream], taken: &[bool]) -> bool
    requires taken { AreTaken earlier.now taken.now }
    requires size { length taken.now ≡ length bytes.now }
    ensures value { result ≡ stream_fits bytes.now s.now earlier.now }
    ensures within { result ≡ true → s.now.offset + s.now.size ≤ length bytes.now }
{
    u64::from(s.offset) + u64::from(s.size) <= bytes.len() as u64
        && agrees_with(s, earlier, taken)
        && !is_same(s.name, StreamName::Uncompressed)
}

/// The stream whose header is at a place, after earlier ones.
#[tactic(auto, using(il_base::proofs::lemmas::cli_format::Faults::faults), unfolding(il_base::specs::cli_format::Metadata::stream_demands, il_base::specs::cli_format::Metadata::header_fits))]
pub fn read_stream(
    bytes: &[u8],
    base: u32,
    at: usize,
    earlier: &[Stream],
    taken: &[bool],
) -> Result<Stream, TablesError>
    requires small { base + length bytes.now < 2 ^ 32 }
    requires taken { AreTaken earlier.now taken.now }
    requires size { length taken.now ≡ length bytes.now }
    requires reach { at ≤ length bytes.now }
    ensures checked { Checked result (stream_demands bytes.now base at earlier.now) (stream_at bytes.now at) }
    ensures header { OnOk result (at + header_size bytes.now at ≤ length bytes.now) }
    ensures within { IfOk result (λ s. s.offset + s.size ≤ length bytes.now) }
{
    let offset = base as usize + at;
    need(fits_header(bytes, at), offset, BAD_STREAM)?;
    let stream = stream_in(bytes, at);
    need(
        fits_stream(bytes, &stream, earlier, taken),
        offset,
        BAD_STREAM,
    )?;
    Ok(stream)
}
