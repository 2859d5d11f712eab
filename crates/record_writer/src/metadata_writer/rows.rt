//! The rows of tables (II.24.2.6).

ghost use Rattle.std.specs.Prelude.{◌≡◌, ℕ, List, ◌≤◌, ◌++◌, length, All, OnOk};
ghost use Rattle.std.specs.List.{flat_map};
ghost use Rattle.rules.specs.file_layout.TableStream as layout;
ghost use Rattle.record_writer.specs.metadata_writer.Cells.{cells_bytes};

use crate::byte_writer::put_number;
use crate::metadata_writer::widths::widths;
use il_base::{NoMemory, Seq};
use std::alloc::Global;

/// A row, by the widths of its columns.
fn put_row(out: &mut Vec<u8>, widths: &[u8], row: &[u64]) -> Result<(), NoMemory>
    requires { All (λ w. w ≤ 4) widths.now }
    ensures { OnOk result (out.new.items ≡ out.old.items ++ cells_bytes widths.now row.now) }
{
    for (i, w) in widths.iter().enumerate() {
        match row.get(i) {
            None => return Ok(()),
            Some(n) => put_number(out, *w as usize, *n)?,
        }
    }
    Ok(())
}

/// Rows one after the other, by the widths of their columns.
fn put_rows(out: &mut Vec<u8>, widths: &[u8], rows: &[Seq<u64>]) -> Result<(), NoMemory>
    requires { All (λ w. w ≤ 4) widths.now }
    ensures { OnOk result (out.new.items ≡ out.old.items ++ flat_map (cells_bytes widths.now) rows.now) }
{
    for row in rows {
        put_row(out, widths, row.as_slice())?;
    }
    Ok(())
}

/// The rows of a table.
#[tactic(auto, using(crate::proofs::lemmas::metadata_writer::Columns::by_widths))]
fn put_table(
    alloc: Global,
    out: &mut Vec<u8>,
    sizes: u8,
    tables: &[Seq<Seq<u64>>],
    t: u8,
    rows: &[Seq<u64>],
) -> Result<(), NoMemory>
    ensures { OnOk result (out.new.items ≡ out.old.items ++ layout.table_bytes sizes tables.now t rows.now) }
{
    let widths = widths(alloc, sizes, tables, t)?;
    put_rows(out, &widths, rows)
}

/// The rows of all tables.
#[tactic(auto, unfolding(rules::specs::file_layout::TableStream::tables_bytes))]
pub fn put_tables(
    alloc: Global,
    out: &mut Vec<u8>,
    sizes: u8,
    tables: &[Seq<Seq<u64>>],
) -> Result<(), NoMemory>
    requires { length tables.now ≤ 64 }
    ensures { OnOk result (out.new.items ≡ out.old.items ++ layout.tables_bytes sizes tables.now 0 tables.now) }
{
    for (t, rows) in tables.iter().enumerate() {
        put_table(alloc, out, sizes, tables, t as u8, rows.as_slice())?;
    }
    Ok(())
}
