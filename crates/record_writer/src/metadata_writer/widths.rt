//! How many bytes a column has (II.24.2.6).

ghost use Rattle.std.specs.Prelude.{◌≡◌, ◌-◌, ◌<◌, ◌≤◌, ◌^◌, List, ℕ, length, All, IfOk, map};
ghost use Rattle.il_base.specs.cli_format.Columns.{columns_of};
ghost use Rattle.il_base.specs.cli_format.Coded.{tag_bits_of};
ghost use Rattle.rules.specs.file_layout.TableStream as layout;

use il_base::cli_format::{CodedIndex, Column, columns, tag_bits, targets};
use il_base::{NoMemory, Seq};
use std::alloc::Global;

/// How many rows a table has.
pub fn rows_in(tables: &[Seq<Seq<u64>>], t: u8) -> usize
    ensures { result ≡ layout.rows_in tables.now t }
{
    match tables.get(t as usize) {
        Some(rows) => rows.len(),
        None => 0,
    }
}

/// The width of a column that names an item of a heap, by its bit of HeapSizes.
fn heap_width(sizes: u8, bit: u8) -> u8
    ensures value { result ≡ layout.heap_width sizes bit }
    ensures small { result ≤ 4 }
{
    if sizes & bit == 0 { 2 } else { 4 }
}

/// The width of a column that names a row of a table.
fn index_width(tables: &[Seq<Seq<u64>>], t: u8) -> u8
    ensures value { result ≡ layout.index_width tables.now t }
    ensures small { result ≤ 4 }
{
    if rows_in(tables, t) < 0x1_0000 { 2 } else { 4 }
}

/// Whether each of some tables has fewer rows than a limit.
#[tactic(auto, unfolding(rules::specs::file_layout::TableStream::fewer))]
fn fewer(tables: &[Seq<Seq<u64>>], limit: usize, among: &[u8]) -> bool
    ensures { result ≡ layout.fewer tables.now limit among.now }
{
    for t in among {
        if rows_in(tables, *t) >= limit {
            return false;
        }
    }
    true
}

/// A bound on rows: where a table has fewer, a coded index of two bytes can name each of them.
fn coded_limit(index: CodedIndex) -> usize
    ensures { result ≡ 2 ^ (16 - tag_bits_of index) }
{
    match tag_bits(index) {
        1 => 0x8000,
        2 => 0x4000,
        3 => 0x2000,
        _ => 0x800,
    }
}

/// The width of a column that names a row of one of several tables.
fn coded_width(tables: &[Seq<Seq<u64>>], index: CodedIndex) -> u8
    ensures value { result ≡ layout.coded_width tables.now index }
    ensures small { result ≤ 4 }
{
    if fewer(tables, coded_limit(index), targets(index)) {
        2
    } else {
        4
    }
}

/// The width of a column, by HeapSizes and the tables' rows.
#[tactic(auto, unfolding(rules::specs::file_layout::TableStream::width))]
fn width(sizes: u8, tables: &[Seq<Seq<u64>>], column: Column) -> u8
    ensures value { result ≡ layout.width sizes tables.now column }
    ensures small { result ≤ 4 }
{
    match column {
        Column::U8 => 1,
        Column::U16 => 2,
        Column::U32 => 4,
        Column::Text => heap_width(sizes, 1),
        Column::Guid => heap_width(sizes, 2),
        Column::Blob => heap_width(sizes, 4),
        Column::Index(t) => index_width(tables, t),
        Column::IndexOrNone(t) => index_width(tables, t),
        Column::Run(t) => index_width(tables, t),
        Column::Coded(index) => coded_width(tables, index),
        Column::CodedOrNone(index) => coded_width(tables, index),
    }
}

/// The widths of a table's columns.
pub fn widths(
    alloc: Global,
    sizes: u8,
    tables: &[Seq<Seq<u64>>],
    t: u8,
) -> Result<Vec<u8>, NoMemory>
    ensures value { IfOk result (λ v. v.items ≡ map (layout.width sizes tables.now) (columns_of t)) }
    ensures small { IfOk result (λ v. All (λ w. w ≤ 4) v.items) }
{
    let mut out = Vec::new(alloc);
    for column in columns(t) {
        out.push(width(sizes, tables, *column))?;
    }
    Ok(out)
}
