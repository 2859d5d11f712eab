//! The `#~` stream (II.24.2.6).

ghost use Rattle.std.specs.Prelude.{◌≡◌, ℕ, List, ◌≤◌, ◌<◌, ◌^◌, ◌++◌, length, IfOk, OnOk};
ghost use Rattle.byteorder.specs.Endian.{little_bytes};
ghost use Rattle.rules.specs.file_layout.TableStream as layout;

use crate::byte_writer::{pad, put_number, put_word};
use crate::metadata_writer::rows::put_tables;
use il_base::{NoMemory, Seq};
use std::alloc::Global;

/// The tables that II.22 has sorted.
const SORTED: u64 = 0x1600_3301_fa00;

/// Valid: a bit for each table that has rows.
#[tactic(auto, unfolding(rules::specs::file_layout::TableStream::valid_bits))]
fn valid_bits(tables: &[Seq<Seq<u64>>]) -> u64
    requires { length tables.now ≤ 64 }
    ensures { result ≡ layout.valid_bits 0 tables.now }
{
    let mut bits = 0u64;
    for (t, rows) in tables.iter().enumerate() {
        if !rows.is_empty() {
            bits += 1 << t;
        }
    }
    bits
}

/// The number of rows of each table that has rows.
#[tactic(auto, unfolding(rules::specs::file_layout::TableStream::counts_bytes))]
fn put_counts(out: &mut Vec<u8>, tables: &[Seq<Seq<u64>>]) -> Result<(), NoMemory>
    ensures { OnOk result (out.new.items ≡ out.old.items ++ layout.counts_bytes tables.now) }
{
    for rows in tables {
        if !rows.is_empty() {
            put_word(out, rows.len() as u64)?;
        }
    }
    Ok(())
}

/// The head of the stream: version 2.0, HeapSizes, a 1 that is reserved, Valid, Sorted, and the counts.
#[tactic(auto, unfolding(rules::specs::file_layout::TableStream::head_bytes))]
fn put_head(out: &mut Vec<u8>, sizes: u8, tables: &[Seq<Seq<u64>>]) -> Result<(), NoMemory>
    requires { length tables.now ≤ 64 }
    ensures { OnOk result (out.new.items ≡ out.old.items ++ layout.head_bytes sizes tables.now) }
{
    out.extend_from_slice(&[0, 0, 0, 0, 2, 0, sizes, 1])?;
    put_number(out, 8, valid_bits(tables))?;
    put_number(out, 8, SORTED)?;
    put_counts(out, tables)
}

/// The `#~` stream of some tables, by HeapSizes.
#[tactic(auto, unfolding(rules::specs::file_layout::TableStream::tables_stream))]
pub fn tables_stream(
    alloc: Global,
    sizes: u8,
    tables: &[Seq<Seq<u64>>],
) -> Result<Vec<u8>, NoMemory>
    requires { length tables.now ≤ 64 }
    ensures { IfOk result (λ v. v.items ≡ layout.tables_stream sizes tables.now) }
{
    let mut out = Vec::new(alloc);
    put_head(&mut out, sizes, tables)?;
    put_tables(alloc, &mut out, sizes, tables)?;
    pad(&mut out, 4)?;
    Ok(out)
}
