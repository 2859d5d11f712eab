//! The addresses of the bytes of fields, each at a multiple of 8.

ghost use Rattle.std.specs.Prelude.{◌≡◌, ◌+◌, ◌%◌, ◌∷◌, ◌++◌, [], IfOk, OnOk};
ghost use Rattle.rules.specs.file_layout.Bytes.{aligned};
ghost use Rattle.rules.specs.file_layout.Image.{code_rva};
ghost use Rattle.rules.specs.merge_rules.Restricted.{bytes_length, placed_bytes};
ghost use Rattle.merged_tables.specs.merged_field_rvas.FieldRvas.{placed_row};

use il_base::world_model::{FieldRvaRow, Known};
use il_base::{NoMemory, Seq, Text};
use std::alloc::Global;

/// The address of method bodies; the bytes of fields come after them.
const CODE_RVA: u64 = 0x2050;

/// The next multiple of 8.
#[tactic(auto, unfolding(rules::specs::file_layout::Bytes::aligned))]
fn next_multiple(n: u64) -> Result<u64, NoMemory>
    ensures { IfOk result (λ m. m ≡ aligned 8 n) }
{
    match n.checked_add(7) {
        Some(end) => Ok(end / 8 * 8),
        None => Err(NoMemory),
    }
}

/// The address of what has this many bytes before it, modulo 2^32.
fn address(before: u64) -> Result<u32, NoMemory>
    ensures { IfOk result (λ rva. rva ≡ (code_rva + before) % 4294967296) }
{
    match CODE_RVA.checked_add(before) {
        Some(rva) => Ok((rva % 0x1_0000_0000) as u32),
        None => Err(NoMemory),
    }
}

fn bytes_length(bytes: &Known<Text>) -> usize
    ensures { result ≡ bytes_length bytes.now }
{
    match bytes {
        Known::Good(bytes) => bytes.len(),
        Known::Bad(_) => 0,
    }
}

/// Puts a row with its address at the end. The result is where its bytes end.
fn push_placed(before: u64, row: FieldRvaRow, done: &mut Seq<FieldRvaRow>) -> Result<u64, NoMemory>
    ensures end { IfOk result (λ n. n ≡ aligned 8 before + bytes_length row.bytes) }
    ensures rows { OnOk result (done.new ≡ done.old ++ placed_row before row ∷ []) }
{
    let start = next_multiple(before)?;
    let rva = address(start)?;
    let length = bytes_length(&row.bytes) as u64;
    let Some(end) = start.checked_add(length) else {
        return Err(NoMemory);
    };
    done.push(FieldRvaRow {
        rva,
        field: row.field,
        bytes: row.bytes,
    })?;
    Ok(end)
}

/// The rows with their addresses, where this many bytes are before theirs.
#[tactic(auto, unfolding(rules::specs::merge_rules::Restricted::placed_bytes))]
pub(crate) fn placed(
    alloc: Global,
    before: u64,
    rows: Vec<FieldRvaRow>,
) -> Result<Seq<FieldRvaRow>, NoMemory>
    ensures { IfOk result (λ done. done ≡ placed_bytes before rows.items) }
{
    let mut at = before;
    let mut done = Seq::new(alloc);
    for row in rows {
        at = push_placed(at, row, &mut done)?;
    }
    Ok(done)
}
