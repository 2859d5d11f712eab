//! `trim` over a folder and two sinks.

ghost use Rattle.std.specs.Prelude.{◌≡◌, Some, map, is_some};
ghost use Rattle.std.specs.Option.{option_copied};
ghost use Rattle.std.specs.String.{string_bytes};
ghost use Rattle.il_outside.specs.Folder.{Files};
ghost use Rattle.trim_command.specs.Writing.{IsApart, KeepsOthers, written_names};
ghost use Rattle.trim_command.specs.Answer.{opts_of, Finished, GivenTrimmed, TrimCaused};
ghost use Rattle.trim_command.specs.Complete.{IsQuiet, IsAnswered};

use crate::reading::{Given, read_given};
use crate::reporting::{refused, report_status, write_status};
use crate::writing::write_left;
use il_base::{Seq, Text};
use il_outside::{Folder, FolderError, Sink};
use status_lines::{Status, report};
use std::alloc::Global;
use trim_core::{Opts, Refusal, Trimmed, trim};

/// Whether a keep list is wanted.
fn is_wanted(list: Option<&str>) -> bool
    ensures { result ≡ is_some (option_copied list.entry) }
{
    match list {
        None => false,
        Some(_) => true,
    }
}

/// Writes what a trim answered.
fn finish<F: Folder, E: Sink>(
    alloc: Global,
    output: &str,
    inputs: &[String],
    descriptors: &[String],
    list: Option<&str>,
    files: &Seq<Text>,
    trimmed: Result<Trimmed, Refusal>,
    folder: &mut F,
    err: &mut E,
) -> Status
    requires { IsApart output.now (option_copied list) }
    ensures finished { Finished trimmed (map string_bytes inputs.now) (map string_bytes descriptors.now) files.now output.now (option_copied list.entry) (F.state folder.old) (F.state folder.new) (E.state err.old) (E.state err.new) result }
    ensures others { KeepsOthers (written_names output.now (option_copied list.entry)) (F.state folder.old).files (F.state folder.new).files }
{
    match trimmed {
        Err(why) => report_status(alloc, err, inputs, descriptors, files, refused(why)),
        Ok(left) => {
            let written = write_left(output, list, &left, folder);
            report(alloc, err, &[], &[], write_status(written))
        }
    }
}

/// Trims files and descriptors that were read.
fn trim_given<F: Folder, E: Sink>(
    alloc: Global,
    output: &str,
    inputs: &[String],
    descriptors: &[String],
    list: Option<&str>,
    internalize: bool,
    given: &Given,
    folder: &mut F,
    err: &mut E,
) -> Status
    requires { IsApart output.now (option_copied list) }
    ensures caused { GivenTrimmed (map string_bytes inputs.now) (map string_bytes descriptors.now) given.now.files given.now.descriptors output.now (option_copied list.entry) (opts_of internalize (option_copied list.entry)) (F.state folder.old) (F.state folder.new) (E.state err.old) (E.state err.new) result }
    ensures others { KeepsOthers (written_names output.now (option_copied list.entry)) (F.state folder.old).files (F.state folder.new).files }
{
    let opts = Opts {
        internalize,
        keep_list: is_wanted(list),
    };
    let trimmed = trim(alloc, &given.files, &given.descriptors, opts);
    finish(
        alloc,
        output,
        inputs,
        descriptors,
        list,
        &given.files,
        trimmed,
        folder,
        err,
    )
}

/// Reads every file under the names `inputs`, and then every descriptor, each in the order of its names; trims the program of the files,
/// of which the first has the entry point; writes what is left under `output`, and then the keep list under `list`, where one is wanted;
/// and writes the line of its status to `err`.
///
/// `Done` says that `output` holds what a trim gives for the bytes that the folder told under the names, and `list` the keep list.
/// `BadFile`, `NoEntry`, `BadDescriptor`, `Outside`, `Unresolved`, `NotYet`, `Collision` and `Limit` come exactly where those bytes say
/// so, and the folder is then as it was. `ReadFault` comes only where one read of the folder failed, that of one of the names, and nothing is
/// read or written after it; `WriteFault` only where one write failed, that of `output`, after which the keep list isn't written, or
/// that of the keep list, and `output` stands whole, or a write to `err`; `NoMemory` alone is free.
pub fn trim_files<F: Folder, O: Sink, E: Sink>(
    alloc: Global,
    output: &str,
    inputs: &[String],
    descriptors: &[String],
    list: Option<&str>,
    internalize: bool,
    folder: &mut F,
    out: &mut O,
    err: &mut E,
) -> Status
    requires { IsApart output.now (option_copied list) }
    ensures caused { TrimCaused (map string_bytes inputs.now) (map string_bytes descriptors.now) output.now (option_copied list.entry) internalize (F.state folder.old) (F.state folder.new) (O.state out.old) (O.state out.new) (E.state err.old) (E.state err.new) result }

    // The other way round: where no count of faults rose, what told files ask for is the answer, or `NoMemory`.
    ensures complete { (files : Files) → (F.state folder.old).files ≡ Some files
        → IsQuiet (F.state folder.old) (F.state folder.new) (O.state out.old) (O.state out.new) (E.state err.old) (E.state err.new)
        → IsAnswered (map string_bytes inputs.now) (map string_bytes descriptors.now) (option_copied list.entry) internalize files result }

    // What the folder holds under other names stays.
    ensures others { KeepsOthers (written_names output.now (option_copied list.entry)) (F.state folder.old).files (F.state folder.new).files }
{
    answer(
        alloc,
        output,
        inputs,
        descriptors,
        list,
        internalize,
        folder,
        out,
        err,
    )
}

fn answer<F: Folder, O: Sink, E: Sink>(
    alloc: Global,
    output: &str,
    inputs: &[String],
    descriptors: &[String],
    list: Option<&str>,
    internalize: bool,
    folder: &mut F,
    out: &mut O,
    err: &mut E,
) -> Status
    requires { IsApart output.now (option_copied list) }
    ensures caused { TrimCaused (map string_bytes inputs.now) (map string_bytes descriptors.now) output.now (option_copied list.entry) internalize (F.state folder.old) (F.state folder.new) (O.state out.old) (O.state out.new) (E.state err.old) (E.state err.new) result }
    ensures others { KeepsOthers (written_names output.now (option_copied list.entry)) (F.state folder.old).files (F.state folder.new).files }
{
    let _ = out;
    match read_given(alloc, inputs, descriptors, folder) {
        Err(FolderError::Failed) => report(alloc, err, &[], &[], Status::ReadFault),
        Err(FolderError::NoMemory) => report(alloc, err, &[], &[], Status::NoMemory),
        Ok(given) => trim_given(
            alloc,
            output,
            inputs,
            descriptors,
            list,
            internalize,
            &given,
            folder,
            err,
        ),
    }
}
