//! The records of files.

ghost use Rattle.std.specs.Prelude.{◌+◌, ◌≤◌, ◌<◌, ◌^◌, length};
ghost use Rattle.inputs.specs.Files.{Reads, ReadsOne, ReadsAll, AreShort};

use crate::error::InputError;
use il_base::world_model::AsmRec;
use il_base::{NoMemory, Seq, Text};
use std::alloc::Global;
use world_reader::{RecordError, read_record};

/// Puts the record of a file at the end.
#[tactic(auto, unfolding(il_base::specs::cli_format::Metadata::Refused))]
fn push_record(alloc: Global, file: &[u8], i: u32, recs: &mut Seq<AsmRec>) -> Result<(), InputError>
    requires { length file.now < 2 ^ 32 }
    ensures { ReadsOne i file.now recs.old recs.new result }
{
    match read_record(alloc, file) {
        Err(RecordError::Bad(at)) => Err(InputError::BadFile { file: i, at }),
        Err(RecordError::Rows { found }) => Err(InputError::Limit {
            which: il_base::limit::ROWS,
            found,
        }),
        Err(RecordError::NoMemory) => Err(InputError::NoMemory),
        Ok(rec) => match recs.push(rec) {
            Ok(()) => Ok(()),
            Err(NoMemory) => Err(InputError::NoMemory),
        },
    }
}

/// Puts the records of files, of which the first has the number `i`, at the end.
#[tactic(auto, unfolding(crate::specs::Files::record_fault, crate::specs::Files::AreShort))]
fn push_records(
    alloc: Global,
    files: &[Text],
    i: u32,
    recs: &mut Seq<AsmRec>,
) -> Result<(), InputError>
    requires short { AreShort files.now }
    requires count { i + length files.now ≤ 64 }
    ensures { Reads i files.now recs.old recs.new result }
{
    match files {
        [] => Ok(()),
        [file, rest @ ..] => match push_record(alloc, file.as_slice(), i, recs) {
            Err(fault) => Err(fault),
            Ok(()) => push_records(alloc, rest, i + 1, recs),
        },
    }
}

/// The records of files, in their order.
pub(crate) fn read_files(alloc: Global, files: &[Text]) -> Result<Seq<AsmRec>, InputError>
    requires short { AreShort files.now }
    requires count { length files.now ≤ 64 }
    ensures { ReadsAll files.now result }
{
    let mut recs = Seq::new(alloc);
    match push_records(alloc, files, 0, &mut recs) {
        Err(fault) => Err(fault),
        Ok(()) => Ok(recs),
    }
}
