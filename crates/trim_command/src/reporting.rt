//! The status line of a trim.

ghost use Rattle.std.specs.Prelude.{◌≡◌, [], IfOk, map, unwrap_or, slice_get};
ghost use Rattle.std.specs.String.{string_bytes};
ghost use Rattle.run_rules.specs.Answers.{name_at};
ghost use Rattle.trim_command.specs.Answer.{refused, write_status, assembly_in, name_in, source_in, named_in, StatusReported};

use file_runs::assembly_name;
use il_base::{NoMemory, Seq, Text};
use il_outside::{FolderError, Sink};
use status_lines::{Status, report};
use std::alloc::Global;
use trim_core::{Refusal, collision_text};

/// A refusal as a status.
pub(crate) fn refused(why: Refusal) -> Status
    ensures { result ≡ refused why }
{
    match why {
        Refusal::BadFile { file, at } => Status::BadFile { file, at },
        Refusal::Outside { place, what } => Status::Outside { place, what },
        Refusal::Unresolved { place } => Status::Unresolved { place },
        Refusal::NotYet { file } => Status::NotYet { file },
        Refusal::Collision { first, second } => Status::Collision { first, second },
        Refusal::BadDescriptor { source, offset } => Status::BadDescriptor { source, offset },
        Refusal::Limit { which, found } => Status::Limit { which, found },
        Refusal::NoEntry { token } => Status::NoEntry { token },
        Refusal::NoMemory => Status::NoMemory,
    }
}

/// What the writes answered, as a status.
pub(crate) fn write_status(written: Result<(), FolderError>) -> Status
    ensures { result ≡ write_status written }
{
    match written {
        Ok(()) => Status::Done,
        Err(FolderError::Failed) => Status::WriteFault,
        Err(FolderError::NoMemory) => Status::NoMemory,
    }
}

/// The name of the assembly that one of the files is, by its number; empty where it has none.
fn name_or_empty(alloc: Global, files: &Seq<Text>, file: u32) -> Result<Text, NoMemory>
    ensures { IfOk result (λ name. name ≡ unwrap_or (name_at files.now file) []) }
{
    match assembly_name(alloc, files, file)? {
        None => Ok(Seq::new(alloc)),
        Some(name) => Ok(name),
    }
}

/// The name of the assembly that a status has a place in.
fn assembly_in(alloc: Global, files: &Seq<Text>, status: &Status) -> Result<Text, NoMemory>
    ensures { IfOk result (λ name. name ≡ assembly_in files.now status.now) }
{
    match status {
        Status::Outside { place, .. } => name_or_empty(alloc, files, place.asm),
        Status::Unresolved { place } => name_or_empty(alloc, files, place.asm),
        Status::Done
        | Status::Ended { .. }
        | Status::BadWords { .. }
        | Status::BadFile { .. }
        | Status::NotYet { .. }
        | Status::Collision { .. }
        | Status::BadDescriptor { .. }
        | Status::Limit { .. }
        | Status::NoEntry { .. }
        | Status::ReadFault
        | Status::WriteFault
        | Status::NoMemory
        | Status::Threw { .. }
        | Status::Spent { .. }
        | Status::Stopped { .. }
        | Status::Stuck { .. } => Ok(Seq::new(alloc)),
    }
}

/// A word by its number; empty where there is none.
fn name_in(names: &[String], number: usize) -> &[u8]
    ensures { result.now ≡ name_in (map string_bytes names.now) number }
{
    match names.get(number) {
        None => b"",
        Some(name) => name.as_bytes(),
    }
}

/// The word of what has a descriptor: the inputs come first, and then the descriptors that were named.
fn source_in<'a>(inputs: &'a [String], descriptors: &'a [String], source: usize) -> &'a [u8]
    ensures { result.now ≡ source_in (map string_bytes inputs.now) (map string_bytes descriptors.now) source }
{
    if source < inputs.len() {
        name_in(inputs, source)
    } else {
        name_in(descriptors, source - inputs.len())
    }
}

/// What the line of a status names besides.
fn named_in(
    alloc: Global,
    inputs: &[String],
    descriptors: &[String],
    files: &Seq<Text>,
    status: &Status,
) -> Result<Text, NoMemory>
    ensures { IfOk result (λ text. text ≡ named_in (map string_bytes inputs.now) (map string_bytes descriptors.now) files.now status.now) }
{
    match status {
        Status::BadFile { file, .. } => Seq::from_slice(alloc, name_in(inputs, *file as usize)),
        Status::NotYet { file } => Seq::from_slice(alloc, name_in(inputs, *file as usize)),
        Status::BadDescriptor { source, .. } => {
            Seq::from_slice(alloc, source_in(inputs, descriptors, *source as usize))
        }
        Status::Collision { first, second } => collision_text(alloc, files, *first, *second),
        Status::Done
        | Status::Ended { .. }
        | Status::BadWords { .. }
        | Status::Outside { .. }
        | Status::Unresolved { .. }
        | Status::Limit { .. }
        | Status::NoEntry { .. }
        | Status::ReadFault
        | Status::WriteFault
        | Status::NoMemory
        | Status::Threw { .. }
        | Status::Spent { .. }
        | Status::Stopped { .. }
        | Status::Stuck { .. } => Ok(Seq::new(alloc)),
    }
}

/// Writes the line of a status of files that were read under these names.
pub(crate) fn report_status<E: Sink>(
    alloc: Global,
    err: &mut E,
    inputs: &[String],
    descriptors: &[String],
    files: &Seq<Text>,
    status: Status,
) -> Status
    ensures { StatusReported (map string_bytes inputs.now) (map string_bytes descriptors.now) files.now status (E.state err.old) (E.state err.new) result }
{
    match assembly_in(alloc, files, &status) {
        Err(_) => report(alloc, err, &[], &[], Status::NoMemory),
        Ok(asm) => match named_in(alloc, inputs, descriptors, files, &status) {
            Err(_) => report(alloc, err, &[], &[], Status::NoMemory),
            Ok(named) => report(alloc, err, asm.as_slice(), named.as_slice(), status),
        },
    }
}
