//! The metadata root and its streams (II.24.2.1, II.24.2.2).

ghost use Rattle.std.specs.Prelude.{◌≡◌, ◌+◌, ◌<◌, ◌^◌, ◌++◌, length, codes, IfOk, OnOk};
ghost use Rattle.rules.specs.file_layout.Bytes.{word, zeros};
ghost use Rattle.rules.specs.file_layout.Metadata as layout;
ghost use Rattle.record_writer.specs.metadata_writer.Views.{streams, AreStreamsShort};

use crate::byte_writer::put_word;
use il_base::NoMemory;
use std::alloc::Global;

/// The streams of the metadata.
#[derive(Drop)]
pub struct Streams<'a> {
    /// `#~`
    pub tables: &'a [u8],
    /// `#Strings`
    pub strings: &'a [u8],
    /// `#US`
    pub users: &'a [u8],
    /// `#GUID`
    pub guids: &'a [u8],
    /// `#Blob`
    pub blobs: &'a [u8],
}

/// The signature, version 1.1, the version text with its length, no flags and five streams (II.24.2.1).
const ROOT: [u8; 32] = [
    b'B', b'S', b'J', b'B', 1, 0, 1, 0, 0, 0, 0, 0, 12, 0, 0, 0, b'v', b'4', b'.', b'0', b'.',
    b'3', b'0', b'3', b'1', b'9', 0, 0, 0, 0, 5, 0,
];

/// Where the first stream begins, after the headers.
const TABLES_AT: u64 = 0x6c;

fn strings_at(s: &Streams<'_>) -> u64
    requires { AreStreamsShort s.now }
    ensures { result ≡ layout.strings_at (streams s.now) }
{
    TABLES_AT + s.tables.len() as u64
}

fn users_at(s: &Streams<'_>) -> u64
    requires { AreStreamsShort s.now }
    ensures { result ≡ layout.users_at (streams s.now) }
{
    strings_at(s) + s.strings.len() as u64
}

fn guids_at(s: &Streams<'_>) -> u64
    requires { AreStreamsShort s.now }
    ensures { result ≡ layout.guids_at (streams s.now) }
{
    users_at(s) + s.users.len() as u64
}

fn blobs_at(s: &Streams<'_>) -> u64
    requires { AreStreamsShort s.now }
    ensures { result ≡ layout.blobs_at (streams s.now) }
{
    guids_at(s) + s.guids.len() as u64
}

/// A stream header: the offset from the root, the size, and the name with its zeros.
fn put_stream_header(out: &mut Vec<u8>, at: u64, stream: &[u8], name: &[u8]) -> Result<(), NoMemory>
    ensures { OnOk result (out.new.items ≡ out.old.items ++ layout.stream_header at stream.now name.now) }
{
    put_word(out, at)?;
    put_word(out, stream.len() as u64)?;
    out.extend_from_slice(name)?;
    Ok(())
}

/// The stream headers (II.24.2.2).
#[tactic(auto, unfolding(rules::specs::file_layout::Metadata::stream_headers))]
fn put_stream_headers(out: &mut Vec<u8>, s: &Streams<'_>) -> Result<(), NoMemory>
    requires { AreStreamsShort s.now }
    ensures { OnOk result (out.new.items ≡ out.old.items ++ layout.stream_headers (streams s.now)) }
{
    put_stream_header(out, TABLES_AT, s.tables, b"#~\0\0")?;
    put_stream_header(out, strings_at(s), s.strings, b"#Strings\0\0\0\0")?;
    put_stream_header(out, users_at(s), s.users, b"#US\0")?;
    put_stream_header(out, guids_at(s), s.guids, b"#GUID\0\0\0")?;
    put_stream_header(out, blobs_at(s), s.blobs, b"#Blob\0\0\0")
}

/// The streams, one after the other.
fn put_streams(out: &mut Vec<u8>, s: &Streams<'_>) -> Result<(), NoMemory>
    ensures { OnOk result (out.new.items ≡ out.old.items
        ++ (s.now.tables.now ++ s.now.strings.now ++ s.now.users.now ++ s.now.guids.now ++ s.now.blobs.now)) }
{
    out.extend_from_slice(s.tables)?;
    out.extend_from_slice(s.strings)?;
    out.extend_from_slice(s.users)?;
    out.extend_from_slice(s.guids)?;
    out.extend_from_slice(s.blobs)?;
    Ok(())
}

/// The metadata of some streams.
#[tactic(auto, unfolding(rules::specs::file_layout::Metadata::root_bytes, rules::specs::file_layout::Metadata::metadata_bytes))]
pub fn metadata(alloc: Global, s: &Streams<'_>) -> Result<Vec<u8>, NoMemory>
    requires { AreStreamsShort s.now }
    ensures { IfOk result (λ v. v.items ≡ layout.metadata_bytes (streams s.now)) }
{
    let mut out = Vec::from_slice(alloc, &ROOT)?;
    put_stream_headers(&mut out, s)?;
    put_streams(&mut out, s)?;
    Ok(out)
}
