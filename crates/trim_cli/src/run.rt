//! The program over a folder, a source and two sinks.

ghost use Rattle.std.specs.Prelude.{◌≡◌, Some, map};
ghost use Rattle.std.specs.Option.{option_map, option_copied};
ghost use Rattle.std.specs.String.{string_bytes};
ghost use Rattle.il_outside.specs.Folder.{Files, KeepsFiles};
ghost use Rattle.exec_command.specs.Words.{word_at};
ghost use Rattle.trim_command.specs.Writing.{IsApart, KeepsOthers, written_names};
ghost use Rattle.trim_command.specs.Answer.{TrimCaused};
ghost use Rattle.trim_command.specs.Complete.{IsQuiet};
ghost use Rattle.trim_cli.specs.Words.{read_words};
ghost use Rattle.trim_cli.specs.Complete.{IsSourceQuiet, IsAnswered};
ghost use Rattle.trim_cli.specs.Answer.{AreApart, Caused, CausedBy, KeepsBy, TakesBy};

use crate::command::Command;
use crate::words::read_words;
use exec_command::{capped, exec_words, word_at, words_at};
use il_outside::{Folder, Sink, Source};
use status_lines::{Status, report};
use std::alloc::Global;
use trim_command::trim_files;

/// The word at a place, if one is given.
fn list_name(words: &[String], list: Option<usize>) -> Option<&str>
    ensures { option_copied result ≡ option_map (word_at (map string_bytes words.now)) list }
{
    match list {
        None => None,
        Some(at) => Some(word_at(words, at)),
    }
}

/// `trim` of the files and descriptors that the words at these places name.
fn trim_words<F: Folder, O: Sink, E: Sink>(
    alloc: Global,
    words: &[String],
    output: usize,
    inputs: &[usize],
    descriptors: &[usize],
    list: Option<usize>,
    internalize: bool,
    folder: &mut F,
    out: &mut O,
    err: &mut E,
) -> Status
    requires { IsApart (word_at (map string_bytes words.now) output) (option_map (word_at (map string_bytes words.now)) list) }
    ensures answered { TrimCaused (map (word_at (map string_bytes words.now)) inputs.now) (map (word_at (map string_bytes words.now)) descriptors.now) (word_at (map string_bytes words.now) output) (option_map (word_at (map string_bytes words.now)) list) internalize (F.state folder.old) (F.state folder.new) (O.state out.old) (O.state out.new) (E.state err.old) (E.state err.new) result }
    ensures folder { KeepsOthers (written_names (word_at (map string_bytes words.now) output) (option_map (word_at (map string_bytes words.now)) list)) (F.state folder.old).files (F.state folder.new).files }
{
    let names = match words_at(alloc, words, inputs) {
        Err(_) => return report(alloc, err, &[], &[], Status::NoMemory),
        Ok(names) => names,
    };
    match words_at(alloc, words, descriptors) {
        Err(_) => report(alloc, err, &[], &[], Status::NoMemory),
        Ok(texts) => trim_files(
            alloc,
            word_at(words, output),
            names.as_slice(),
            texts.as_slice(),
            list_name(words, list),
            internalize,
            folder,
            out,
            err,
        ),
    }
}

/// Runs a command, or reports the place of a bad word.
fn do_command<F: Folder, I: Source, O: Sink, E: Sink>(
    alloc: Global,
    command: Result<Command, usize>,
    words: &[String],
    folder: &mut F,
    input: &mut I,
    out: &mut O,
    err: &mut E,
) -> Status
    requires { AreApart command (map string_bytes words.now) }
    ensures answered { CausedBy command (map string_bytes words.now) (F.state folder.old) (F.state folder.new) (I.state input.old) (I.state input.new) (O.state out.old) (O.state out.new) (E.state err.old) (E.state err.new) result }
    ensures folder { KeepsBy command (map string_bytes words.now) (F.state folder.old).files (F.state folder.new).files }
    ensures input { TakesBy command (I.state input.old) (I.state input.new) }
{
    match command {
        Err(at) => report(alloc, err, &[], &[], Status::BadWords { place: capped(at) }),
        Ok(Command::Exec { inputs, steps }) => exec_words(
            alloc,
            words,
            inputs.as_slice(),
            steps,
            folder,
            input,
            out,
            err,
        ),
        Ok(
            Command::Trim {
                output,
                inputs,
                descriptors,
                list,
                internalize,
            },
        ) => trim_words(
            alloc,
            words,
            output,
            inputs.as_slice(),
            descriptors.as_slice(),
            list,
            internalize,
            folder,
            out,
            err,
        ),
    }
}

/// Reads the words, and runs their command.
#[tactic(auto, using(crate::proofs::ApartLemmas::apart))]
fn answer<F: Folder, I: Source, O: Sink, E: Sink>(
    alloc: Global,
    words: &[String],
    folder: &mut F,
    input: &mut I,
    out: &mut O,
    err: &mut E,
) -> Status
    ensures answered { Caused (map string_bytes words.now) (F.state folder.old) (F.state folder.new) (I.state input.old) (I.state input.new) (O.state out.old) (O.state out.new) (E.state err.old) (E.state err.new) result }
    ensures folder { KeepsBy (read_words (map string_bytes words.now)) (map string_bytes words.now) (F.state folder.old).files (F.state folder.new).files }
    ensures input { TakesBy (read_words (map string_bytes words.now)) (I.state input.old) (I.state input.new) }
{
    match read_words(alloc, words) {
        Err(_) => report(alloc, err, &[], &[], Status::NoMemory),
        Ok(command) => do_command(alloc, command, words, folder, input, out, err),
    }
}

/// Runs the command that the words spell: `exec` or `trim`.
///
/// `answered` says for each status when it comes and what it leaves. `Ended`, `Threw`, `Spent`, `Stopped` and `Stuck` are the
/// outcomes of the defined run at the given number of steps. Its files are the bytes that were read under the words, its
/// input is what the source had left, and `out` is extended by exactly its output. `Done` says that OUT holds the file that a trim
/// of the files IN gives with the descriptors and options of the words (`Trims` in `trim_core`). The keep list, where one is asked
/// for, then holds its text. `BadFile`, `Limit`, `NoEntry`, `BadDescriptor`, `Outside`, `Unresolved`, `NotYet` and `Collision` come
/// exactly where those bytes require it, `BadWords` exactly where the words spell no command. `ReadFault` comes only where one read failed:
/// of a file or a descriptor in the folder, or of the source. `WriteFault` comes only where one write failed: of OUT, of the keep
/// list, after which OUT stands whole, or to a sink. `NoMemory` has no stated cause. A call that fails is never hidden: where another
/// answer comes, no read and no write of the folder, no read of the source and no write to `out` failed. `err` is extended by
/// exactly the status line, and after `WriteFault` and `NoMemory` both sinks by prefixes. After a refusal the folder is as it was.
/// `complete` is the converse: where no count of faults rose, the answer is the one that the words, a known folder and a known source
/// require, or `NoMemory`.
pub fn run<F: Folder, I: Source, O: Sink, E: Sink>(
    alloc: Global,
    words: &Vec<String>,
    folder: &mut F,
    input: &mut I,
    out: &mut O,
    err: &mut E,
) -> Status
    ensures answered { Caused (map string_bytes words.now.items) (F.state folder.old) (F.state folder.new) (I.state input.old) (I.state input.new) (O.state out.old) (O.state out.new) (E.state err.old) (E.state err.new) result }
    ensures complete { (files : Files) → (F.state folder.old).files ≡ Some files
        → IsQuiet (F.state folder.old) (F.state folder.new) (O.state out.old) (O.state out.new) (E.state err.old) (E.state err.new)
        → IsSourceQuiet (read_words (map string_bytes words.now.items)) (I.state input.old) (I.state input.new)
        → IsAnswered (read_words (map string_bytes words.now.items)) (map string_bytes words.now.items) files (I.state input.old).left result }

    // `trim` changes OUT and the keep list alone, and every other call nothing; only `exec` reads the source.
    ensures folder { KeepsBy (read_words (map string_bytes words.now.items)) (map string_bytes words.now.items) (F.state folder.old).files (F.state folder.new).files }
    ensures input { TakesBy (read_words (map string_bytes words.now.items)) (I.state input.old) (I.state input.new) }
{
    answer(alloc, words.as_slice(), folder, input, out, err)
}
