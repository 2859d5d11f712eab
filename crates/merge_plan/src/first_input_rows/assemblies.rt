//! The Assembly rows of the output (II.22.2).

ghost use Rattle.std.specs.Prelude.{◌≡◌, ◌-◌, bit_and, map, IfOk};
ghost use Rattle.rules.specs.merge_rules.Restricted.{moved_assembly};

use il_base::world_model::AssemblyRow;
use il_base::{NoMemory, Seq};
use std::alloc::Global;

/// `PublicKey`: the row has a whole key, and not a token of one (II.23.1.2).
const PUBLIC_KEY: u32 = 1;

/// Flags without the one for a key.
fn without_key(word: u32) -> u32
    ensures { result ≡ word - bit_and word 1 }
{
    word.saturating_sub(word & PUBLIC_KEY)
}

/// A row without its key, and so without the flag PublicKey.
fn moved_assembly(alloc: Global, row: &AssemblyRow) -> Result<AssemblyRow, NoMemory>
    ensures { IfOk result (λ made. made ≡ moved_assembly row.now) }
{
    let name = Seq::from_slice(alloc, row.name.as_slice())?;
    let culture = Seq::from_slice(alloc, row.culture.as_slice())?;
    Ok(AssemblyRow {
        hash_alg_id: row.hash_alg_id,
        major_version: row.major_version,
        minor_version: row.minor_version,
        build_number: row.build_number,
        revision_number: row.revision_number,
        flags: without_key(row.flags),
        public_key: Seq::new(alloc),
        name,
        culture,
    })
}

/// The rows of the output, which are made of the first input's.
pub fn assembly_rows(alloc: Global, rows: &[AssemblyRow]) -> Result<Seq<AssemblyRow>, NoMemory>
    ensures { IfOk result (λ made. made ≡ map moved_assembly rows.now) }
{
    let mut made = Seq::new(alloc);
    for row in rows {
        let moved = moved_assembly(alloc, row)?;
        made.push(moved)?;
    }
    Ok(made)
}
