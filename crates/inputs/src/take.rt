//! Files as the world that they make.

ghost use Rattle.std.specs.Prelude.{◌≡◌, ◌<◌, ◌^◌, length, Some, IfOk};
ghost use Rattle.inputs.specs.Files.{Takes, LinksFiles, Passes, AreShort, records, offset_in, row_offset, entry_fault};

use crate::error::InputError;
use crate::limits::within_limits;
use crate::records::read_files;
use il_base::world_model::{AsmRec, World, index_in};
use il_base::{BadAt, NoMemory, Seq, Text, table};
use resolver::link;
use rules::link_rules::LinkError;
use std::alloc::Global;
use world_reader::row_place;

/// The offset of a row in a file, 0 where no row is named.
fn offset_in(alloc: Global, file: &[u8], token: u32) -> Result<u32, NoMemory>
    requires { length file.now < 2 ^ 32 }
    ensures { IfOk result (λ at. at ≡ offset_in token (Some file.now)) }
{
    match row_place(alloc, file, token) {
        Err(NoMemory) => Err(NoMemory),
        Ok(None) => Ok(0),
        Ok(Some(at)) => Ok(at),
    }
}

/// The offset of a row in the file of a number, 0 where no row is named.
#[tactic(auto, using(crate::proofs::Short::short_at))]
fn row_offset(alloc: Global, files: &Seq<Text>, file: u32, token: u32) -> Result<u32, NoMemory>
    requires { AreShort files.now }
    ensures { IfOk result (λ at. at ≡ row_offset files.now file token) }
{
    match files.get(file as usize) {
        None => Ok(0),
        Some(bytes) => offset_in(alloc, bytes.as_slice(), token),
    }
}

/// Whether the entry point token of the first record names a MethodDef row.
fn has_entry(recs: &[AsmRec]) -> Result<(), InputError>
    ensures { Passes (entry_fault recs.now) result }
{
    match recs {
        [] => Ok(()),
        [rec, ..] => {
            let names = match index_in(table::METHOD_DEF, rec.entry) {
                None => false,
                Some(row) => (row as usize) < rec.method_def.len(),
            };
            if names {
                Ok(())
            } else {
                Err(InputError::NoEntry { token: rec.entry })
            }
        }
    }
}

/// The world of the files' records, where they link.
fn link_files(alloc: Global, files: &Seq<Text>, recs: Seq<AsmRec>) -> Result<World, InputError>
    requires short { AreShort files.now }
    requires read { recs ≡ records files.now }
    ensures { LinksFiles files.now result }
{
    match link(alloc, recs) {
        Ok(world) => Ok(world),
        Err(LinkError::NoMemory) => Err(InputError::NoMemory),
        Err(LinkError::Bad { file, why, token }) => match row_offset(alloc, files, file, token) {
            Err(NoMemory) => Err(InputError::NoMemory),
            Ok(offset) => Err(InputError::BadFile {
                file,
                at: BadAt { offset, why },
            }),
        },
    }
}

/// The world of the files, of which the first is the primary; or the first of these that isn't met: the limits on their number
/// and lengths, the demands on each file in its turn, the demands of linking, the entry point.
#[tactic(auto, using(crate::proofs::Short::short_files, crate::proofs::Short::few_files, crate::proofs::Short::all_pass))]
pub fn take_files(alloc: Global, files: &Seq<Text>) -> Result<World, InputError>
    ensures { Takes files.now result }
{
    within_limits(files.as_slice())?;
    let recs = read_files(alloc, files.as_slice())?;
    let entry = has_entry(recs.as_slice());
    let world = link_files(alloc, files, recs)?;
    entry?;
    Ok(world)
}
