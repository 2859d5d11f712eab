//! Names of assemblies.

ghost use Rattle.std.specs.Prelude.{◌≡◌, ◌<◌, ◌^◌, length, IfOk};
ghost use Rattle.run_rules.specs.Answers.{name_of, name_at};

use il_base::{NoMemory, Seq, Text};
use std::alloc::Global;
use world_reader::{RecordError, read_record};

/// The longest file that has a name, in bytes.
const MOST_BYTES: usize = 4_294_967_295;

/// The name of the assembly that a file is, None where it has no record.
#[tactic(auto, unfolding(il_base::specs::cli_format::Metadata::Refused))]
fn name_of(alloc: Global, file: &[u8]) -> Result<Option<Text>, NoMemory>
    ensures { IfOk result (λ name. name ≡ name_of file.now) }
{
    if file.len() > MOST_BYTES {
        return Err(NoMemory);
    }
    match read_record(alloc, file) {
        Err(RecordError::NoMemory) => Err(NoMemory),
        Err(RecordError::Bad(_)) => Ok(None),
        Err(RecordError::Rows { .. }) => Ok(None),
        Ok(rec) => match rec.assembly.as_slice() {
            [] => Ok(None),
            [row, ..] => Ok(Some(Seq::from_slice(alloc, row.name.as_slice())?)),
        },
    }
}

/// The name of the assembly that one of these files is, by its number from 0. None where there is no such file, or it has no
/// record.
pub fn assembly_name(alloc: Global, files: &Seq<Text>, file: u32) -> Result<Option<Text>, NoMemory>
    ensures { IfOk result (λ name. name ≡ name_at files.now file) }
{
    match files.get(file as usize) {
        None => Ok(None),
        Some(bytes) => name_of(alloc, bytes.as_slice()),
    }
}
