//! `exec` over a folder, a source and two sinks.

ghost use Rattle.std.specs.Prelude.{◌≡◌, Some, map};
ghost use Rattle.std.specs.String.{string_bytes};
ghost use Rattle.il_outside.specs.Folder.{Files, KeepsFiles};
ghost use Rattle.exec_command.specs.Words.{word_at};
ghost use Rattle.exec_command.specs.Input.{TakesSome};
ghost use Rattle.exec_command.specs.Answer.{RunCaused, FilesCaused, ExecCaused};
ghost use Rattle.exec_command.specs.Complete.{IsQuiet, IsAnswered};

use crate::input::{InputFault, MOST_BYTES, read_input};
use crate::reporting::report_run;
use crate::words::words_at;
use file_runs::exec_to;
use il_base::{Seq, Text, limit};
use il_outside::{Folder, FolderError, Sink, Source};
use named_files::read_files;
use status_lines::{Status, report};
use std::alloc::Global;

/// Runs the program of files over the bytes of the input.
fn run_files<O: Sink, E: Sink>(
    alloc: Global,
    names: &[String],
    files: &Seq<Text>,
    input: &[u8],
    steps: u64,
    out: &mut O,
    err: &mut E,
) -> Status
    ensures { RunCaused (map string_bytes names.now) files.now input.now steps (O.state out.old) (O.state out.new) (E.state err.old) (E.state err.new) result }
{
    let answer = exec_to(alloc, files, input, steps, out);
    report_run(alloc, err, names, files, steps, answer)
}

/// Reads the input, and runs the program of files over it.
fn feed_files<I: Source, O: Sink, E: Sink>(
    alloc: Global,
    names: &[String],
    files: &Seq<Text>,
    steps: u64,
    input: &mut I,
    out: &mut O,
    err: &mut E,
) -> Status
    ensures { FilesCaused (map string_bytes names.now) files.now steps (I.state input.old) (I.state input.new) (O.state out.old) (O.state out.new) (E.state err.old) (E.state err.new) result }
{
    match read_input(alloc, input) {
        Err(InputFault::Failed) => report(alloc, err, &[], &[], Status::ReadFault),
        Err(InputFault::TooLong) => report(
            alloc,
            err,
            &[],
            &[],
            Status::Limit {
                which: limit::INPUT_LENGTH,
                found: MOST_BYTES as u64 + 1,
            },
        ),
        Err(InputFault::NoMemory) => report(alloc, err, &[], &[], Status::NoMemory),
        Ok(bytes) => {
            let status = run_files(alloc, names, files, bytes.as_slice(), steps, out, err);
            drop(bytes);
            status
        }
    }
}

/// Reads the files under the names, in their order, and then the input to its end; runs the program of the files, of which the
/// first has the entry point, for at most `steps` steps; and writes the line of its status to `err`.
///
/// `Ended`, `Threw`, `Spent`, `Stopped` and `Stuck` are what the run's definition gives for the bytes that were read under the
/// names and the bytes that the source had left, and `out` is extended by exactly the run's output. `BadFile`, `Limit` and
/// `NoEntry` come exactly where those bytes say so, an input of more than 67108864 bytes before all else. `ReadFault` comes only
/// where one read of the folder failed, that of one of the names, or one of the input; `WriteFault` only where one write to a
/// sink failed; `NoMemory` has no stated cause. After a read that failed nothing is read, and nothing is printed but the line.
pub fn exec_files<F: Folder, I: Source, O: Sink, E: Sink>(
    alloc: Global,
    names: &[String],
    steps: u64,
    folder: &mut F,
    input: &mut I,
    out: &mut O,
    err: &mut E,
) -> Status
    ensures caused { ExecCaused (map string_bytes names.now) steps (F.state folder.old) (F.state folder.new) (I.state input.old) (I.state input.new) (O.state out.old) (O.state out.new) (E.state err.old) (E.state err.new) result }

    // The other way round: where no count of faults rose, what known files and a known input ask for is the answer, or `NoMemory`.
    ensures complete { (files : Files) → (F.state folder.old).files ≡ Some files
        → IsQuiet (F.state folder.old) (F.state folder.new) (I.state input.old) (I.state input.new) (O.state out.old) (O.state out.new) (E.state err.old) (E.state err.new)
        → IsAnswered (map string_bytes names.now) files (I.state input.old).left steps result }
    ensures files { KeepsFiles (F.state folder.old).files (F.state folder.new).files }
    ensures input { TakesSome (I.state input.old) (I.state input.new) }
{
    answer(alloc, names, steps, folder, input, out, err)
}

fn answer<F: Folder, I: Source, O: Sink, E: Sink>(
    alloc: Global,
    names: &[String],
    steps: u64,
    folder: &mut F,
    input: &mut I,
    out: &mut O,
    err: &mut E,
) -> Status
    ensures caused { ExecCaused (map string_bytes names.now) steps (F.state folder.old) (F.state folder.new) (I.state input.old) (I.state input.new) (O.state out.old) (O.state out.new) (E.state err.old) (E.state err.new) result }
    ensures files { KeepsFiles (F.state folder.old).files (F.state folder.new).files }
{
    match read_files(alloc, names, folder) {
        Err(FolderError::Failed) => report(alloc, err, &[], &[], Status::ReadFault),
        Err(FolderError::NoMemory) => report(alloc, err, &[], &[], Status::NoMemory),
        Ok(files) => feed_files(alloc, names, &files, steps, input, out, err),
    }
}

/// `exec` of the files that the words at these places name.
pub fn exec_words<F: Folder, I: Source, O: Sink, E: Sink>(
    alloc: Global,
    words: &[String],
    inputs: &[usize],
    steps: u64,
    folder: &mut F,
    input: &mut I,
    out: &mut O,
    err: &mut E,
) -> Status
    ensures answered { ExecCaused (map (word_at (map string_bytes words.now)) inputs.now) steps (F.state folder.old) (F.state folder.new) (I.state input.old) (I.state input.new) (O.state out.old) (O.state out.new) (E.state err.old) (E.state err.new) result }
    ensures folder { KeepsFiles (F.state folder.old).files (F.state folder.new).files }
    ensures input { TakesSome (I.state input.old) (I.state input.new) }
{
    match words_at(alloc, words, inputs) {
        Err(_) => report(alloc, err, &[], &[], Status::NoMemory),
        Ok(names) => exec_files(alloc, names.as_slice(), steps, folder, input, out, err),
    }
}
