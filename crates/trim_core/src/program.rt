//! The trim of any files.

ghost use Rattle.std.specs.Prelude.{◌≡◌};
ghost use Rattle.rules.specs.link_rules.Linked.{IsWorld};
ghost use Rattle.base_laws.specs.flaw_laws.There.{RowsThere};
ghost use Rattle.inputs.specs.Files.{records};
ghost use Rattle.trim_core.specs.Told.{entry_row};
ghost use Rattle.il_base.specs.blob_grammar.Laws.{AreBytes};
ghost use Rattle.trim_core.specs.Taken.{Bytes, IsTaken};
ghost use Rattle.descriptor_roots.specs.Roots.{roots_of};
ghost use Rattle.trim_core.specs.program_trim.Trim.{LeftIsSpelled};
ghost use Rattle.trim_core.specs.Trim.{TrimsProgram, TrimsFiles, list_if};

use crate::answers::{Opts, Refusal, Trimmed};
use crate::program_trim::{ProgramTrim, TrimFault, trim_world};
use crate::taking::{entry_row, inputs_of};
use descriptor_file::Root;
use il_base::world_model::World;
use il_base::{Seq, Text};
use input_laws::laws::files_told;
use rules::link_rules::RowAt;
use std::alloc::Global;
use trim_laws::spelled_trims::laws::trim_is_spelled;
use trim_laws::trim_behaves::laws::{files_merge, trims_behave};

/// A law on the world that files were taken as: it is linked, and its MethodImpl rows name rows that are there.
fn world_told(files: &Seq<Text>, world: &World)
    requires { IsTaken files.now world.now }
    ensures linked { IsWorld world.now }
    ensures there { RowsThere world.now.recs }
{
    let _ = files;
    let _ = world;
    files_told();
}

/// A law: the elements of a byte slice are below 256. It does nothing.
fn bytes_told(bytes: &[u8])
    ensures { AreBytes bytes.now }
{
    let _ = bytes;
}

/// The same law for each of several files.
fn all_bytes_told(files: &[Text])
    ensures { Bytes files.now }
{
    match files {
        [] => (),
        [file, rest @ ..] => {
            bytes_told(file.as_slice());
            all_bytes_told(rest);
        }
    }
}

/// The keep list where it is wanted, else nothing.
fn list_if(alloc: Global, wanted: bool, list: Text) -> Text
    ensures { result ≡ list_if wanted list }
{
    if wanted { list } else { Seq::new(alloc) }
}

/// The trim of the world of files, from this entry method.
fn trim_from(
    alloc: Global,
    world: &World,
    entry: Option<RowAt>,
    roots: &[Root],
    opts: Opts,
) -> Result<Trimmed, Refusal>
    requires linked { IsWorld world.now }
    requires there { RowsThere world.now.recs }
    requires spelled { LeftIsSpelled world.now.recs entry roots.now opts.internalize }
    ensures { TrimsProgram world.now.recs entry roots.now opts result }
{
    match trim_world(alloc, world, entry, roots, opts.internalize) {
        Err(TrimFault::Outside { place, what }) => Err(Refusal::Outside { place, what }),
        Err(TrimFault::Unresolved { place }) => Err(Refusal::Unresolved { place }),
        Err(TrimFault::NotYet { file }) => Err(Refusal::NotYet { file }),
        Err(TrimFault::Collision { first, second }) => Err(Refusal::Collision { first, second }),
        Err(TrimFault::Limit { which, found }) => Err(Refusal::Limit { which, found }),
        Err(TrimFault::NoMemory) => Err(Refusal::NoMemory),
        Ok(ProgramTrim { bytes, kept }) => Ok(Trimmed {
            bytes,
            kept: list_if(alloc, opts.keep_list, kept),
        }),
    }
}

/// The trim of files that were taken as this world, with these elements of descriptors.
pub(crate) fn trim_program(
    alloc: Global,
    files: &Seq<Text>,
    world: &World,
    descriptors: &Seq<Text>,
    roots: &[Root],
    opts: Opts,
) -> Result<Trimmed, Refusal>
    requires taken { IsTaken files.now world.now }
    requires roots { roots.now ≡ roots_of (records files.now) descriptors.now }
    ensures { TrimsFiles files.now descriptors.now opts result }
{
    let _ = descriptors;
    world_told(files, world);
    all_bytes_told(files.as_slice());
    trim_is_spelled();
    trims_behave();
    files_merge();
    let entry = entry_row(inputs_of(files, world));
    trim_from(alloc, world, entry, roots, opts)
}
