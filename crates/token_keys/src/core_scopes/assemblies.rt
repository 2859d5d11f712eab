//! AssemblyRef rows (II.22.5) by what is written of them.

ghost use Rattle.std.specs.Prelude.{◌≡◌, IfOk};
ghost use Rattle.rules.specs.merge_rules.Absent.{bare, same_assembly};
ghost use Rattle.rules.specs.merge_rules.Refs.{system_runtime};

use il_base::world_model::AssemblyRefRow;
use il_base::{NoMemory, Seq};
use std::alloc::Global;

/// A copy of a row without its hash, which isn't written.
pub fn bare(alloc: Global, row: &AssemblyRefRow) -> Result<AssemblyRefRow, NoMemory>
    ensures { IfOk result (λ copy. copy ≡ bare row.now) }
{
    let public_key_or_token = Seq::from_slice(alloc, row.public_key_or_token.as_slice())?;
    let name = Seq::from_slice(alloc, row.name.as_slice())?;
    let culture = Seq::from_slice(alloc, row.culture.as_slice())?;
    Ok(AssemblyRefRow {
        major_version: row.major_version,
        minor_version: row.minor_version,
        build_number: row.build_number,
        revision_number: row.revision_number,
        flags: row.flags,
        public_key_or_token,
        name,
        culture,
        hash_value: Seq::new(alloc),
    })
}

/// Whether the same is written of two rows: all but their hashes.
pub fn same_assembly(one: &AssemblyRefRow, other: &AssemblyRefRow) -> bool
    ensures { result ≡ same_assembly one.now other.now }
{
    one.major_version == other.major_version
        && one.minor_version == other.minor_version
        && one.build_number == other.build_number
        && one.revision_number == other.revision_number
        && one.flags == other.flags
        && one.public_key_or_token.as_slice() == other.public_key_or_token.as_slice()
        && one.name.as_slice() == other.name.as_slice()
        && one.culture.as_slice() == other.culture.as_slice()
}

/// System.Runtime without a version or a key.
pub fn system_runtime(alloc: Global) -> Result<AssemblyRefRow, NoMemory>
    ensures { IfOk result (λ row. row ≡ system_runtime) }
{
    let name = Seq::from_slice(alloc, b"System.Runtime".as_slice())?;
    Ok(AssemblyRefRow {
        major_version: 0,
        minor_version: 0,
        build_number: 0,
        revision_number: 0,
        flags: 0,
        public_key_or_token: Seq::new(alloc),
        name,
        culture: Seq::new(alloc),
        hash_value: Seq::new(alloc),
    })
}
