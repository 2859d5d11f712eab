//! `trim`: leaves out the items that programs don't need, and merges their files.

ghost use Rattle.std.specs.Prelude.{◌≡◌};
ghost use Rattle.std.specs.Option.{option_map};
ghost use Rattle.inputs.specs.Files.{records, input_fault};
ghost use Rattle.descriptor_roots.specs.Roots.{descriptor_fault};
ghost use Rattle.trim_core.specs.Told.{or_refusal, input_refusal, roots_refusal, too_long, short_fault};
ghost use Rattle.trim_core.specs.Taken.{IsTaken};
ghost use Rattle.trim_core.specs.Trim.{Trims, TrimsUnless};

use crate::answers::{Opts, Refusal, Trimmed};
use crate::program::trim_program;
use crate::taking::inputs_of;
use descriptor_roots::{RootsError, descriptor_roots, within_length};
use il_base::world_model::World;
use il_base::{Seq, Text, limit};
use inputs::{InputError, take_files, within_limits};
use std::alloc::Global;

/// The refusal of files, as `trim` answers it.
fn input_refusal(error: InputError) -> Refusal
    ensures { result ≡ input_refusal error }
{
    match error {
        InputError::Limit { which, found } => Refusal::Limit { which, found },
        InputError::BadFile { file, at } => Refusal::BadFile { file, at },
        InputError::NoEntry { token } => Refusal::NoEntry { token },
        InputError::NoMemory => Refusal::NoMemory,
    }
}

/// The refusal of a descriptor with too many bytes, as `trim` answers it.
fn too_long(found: u64) -> Refusal
    ensures { result ≡ too_long found }
{
    Refusal::Limit {
        which: limit::DESCRIPTOR_LENGTH,
        found,
    }
}

/// The refusal of a descriptor, as `trim` answers it.
fn roots_refusal(error: RootsError) -> Refusal
    ensures { result ≡ roots_refusal error }
{
    match error {
        RootsError::Bad { source, offset } => Refusal::BadDescriptor { source, offset },
        RootsError::NoMemory => Refusal::NoMemory,
    }
}

/// Trims files that were taken as this world.
#[tactic(auto, using(crate::proofs::FileLemmas::roots_due, crate::proofs::FileLemmas::roots_on))]
fn trim_taken(
    alloc: Global,
    files: &Seq<Text>,
    world: &World,
    descriptors: &Seq<Text>,
    opts: Opts,
) -> Result<Trimmed, Refusal>
    requires { IsTaken files.now world.now }
    ensures { TrimsUnless (option_map roots_refusal (descriptor_fault (records files.now) descriptors.now)) files.now descriptors.now opts result }
{
    match descriptor_roots(alloc, inputs_of(files, world), descriptors.as_slice()) {
        Err(error) => Err(roots_refusal(error)),
        Ok(roots) => trim_program(alloc, files, world, descriptors, roots.as_slice(), opts),
    }
}

/// Trims files whose number and lengths are within the limits.
#[tactic(auto, using(crate::proofs::FileLemmas::input_due, crate::proofs::FileLemmas::taken_on))]
fn trim_files(
    alloc: Global,
    files: &Seq<Text>,
    descriptors: &Seq<Text>,
    opts: Opts,
) -> Result<Trimmed, Refusal>
    ensures { TrimsUnless (or_refusal (option_map input_refusal (input_fault files.now)) (option_map roots_refusal (descriptor_fault (records files.now) descriptors.now))) files.now descriptors.now opts result }
{
    match take_files(alloc, files) {
        Err(error) => Err(input_refusal(error)),
        Ok(world) => trim_taken(alloc, files, &world, descriptors, opts),
    }
}

/// Trims files whose number and lengths are within the limits, where the descriptors are too.
#[tactic(auto, using(crate::proofs::FileLemmas::length_due, crate::proofs::FileLemmas::within_on))]
fn trim_short(
    alloc: Global,
    files: &Seq<Text>,
    descriptors: &Seq<Text>,
    opts: Opts,
) -> Result<Trimmed, Refusal>
    ensures { TrimsUnless (short_fault files.now descriptors.now) files.now descriptors.now opts result }
{
    match within_length(descriptors.as_slice()) {
        Some(found) => Err(too_long(found)),
        None => trim_files(alloc, files, descriptors, opts),
    }
}

/// Trims the program of the files, and merges what is left into one file. The first file has the entry point and gives the name;
/// these descriptors and the embedded ones say what is kept besides.
///
/// It refuses with the first of these: a limit on files (1 to 3), one on a named descriptor (4), a demand on a file in its turn
/// (`BadFile`, `Limit` 5), a demand of linking (`BadFile`), `NoEntry`, a descriptor (`BadDescriptor`). After them come the first
/// flaw of a needed item (`Outside`, `Unresolved`), `NotYet`, `Collision`, and the limits on the file that is written (5, 7).
/// `NoMemory` alone is free.
#[tactic(auto, unfolding(crate::specs::Told::trim_fault), using(crate::proofs::FileLemmas::limit_due, crate::proofs::FileLemmas::taken_on))]
pub fn trim(
    alloc: Global,
    files: &Seq<Text>,
    descriptors: &Seq<Text>,
    opts: Opts,
) -> Result<Trimmed, Refusal>
    ensures { Trims files.now descriptors.now opts result }
{
    match within_limits(files.as_slice()) {
        Err(error) => Err(input_refusal(error)),
        Ok(()) => trim_short(alloc, files, descriptors, opts),
    }
}
