//! The program over a folder, a source and two sinks.

ghost use Rattle.std.specs.Prelude.{◌≡◌, IfOk, Some, map};
ghost use Rattle.std.specs.String.{string_bytes};
ghost use Rattle.il_outside.specs.Folder.{Files, KeepsFiles};
ghost use Rattle.exec_command.specs.Complete.{IsQuiet};
ghost use Rattle.exec_cli.specs.Words.{read_words};
ghost use Rattle.exec_cli.specs.Answer.{Caused, CausedBy, TakesBy};
ghost use Rattle.exec_cli.specs.Complete.{IsAnswered};

use exec_command::{ExecWords, capped, exec_words, read_exec};
use il_base::NoMemory;
use il_outside::{Folder, Sink, Source};
use status_lines::{Status, report};
use std::alloc::Global;

/// What the words ask for, or the place of the first bad word; where a word is missing, the number of words.
#[tactic(auto, unfolding(crate::specs::Words::read_words))]
fn read_words(alloc: Global, words: &[String]) -> Result<Result<ExecWords, usize>, NoMemory>
    ensures { IfOk result (λ r. r ≡ read_words (map string_bytes words.now)) }
{
    match words {
        [] => Ok(Err(0)),
        [first, ..] => {
            if first.as_bytes() == b"exec".as_slice() {
                read_exec(alloc, words)
            } else {
                Ok(Err(0))
            }
        }
    }
}

/// Runs what the words ask for, or reports the place of a bad word.
fn exec_asked<F: Folder, I: Source, O: Sink, E: Sink>(
    alloc: Global,
    asked: Result<ExecWords, usize>,
    words: &[String],
    folder: &mut F,
    input: &mut I,
    out: &mut O,
    err: &mut E,
) -> Status
    ensures answered { CausedBy asked (map string_bytes words.now) (F.state folder.old) (F.state folder.new) (I.state input.old) (I.state input.new) (O.state out.old) (O.state out.new) (E.state err.old) (E.state err.new) result }
    ensures folder { KeepsFiles (F.state folder.old).files (F.state folder.new).files }
    ensures input { TakesBy asked (I.state input.old) (I.state input.new) }
{
    match asked {
        Err(at) => report(alloc, err, &[], &[], Status::BadWords { place: capped(at) }),
        Ok(asked) => exec_words(
            alloc,
            words,
            asked.inputs.as_slice(),
            asked.steps,
            folder,
            input,
            out,
            err,
        ),
    }
}

/// Reads the words, and runs what they ask for.
fn answer<F: Folder, I: Source, O: Sink, E: Sink>(
    alloc: Global,
    words: &[String],
    folder: &mut F,
    input: &mut I,
    out: &mut O,
    err: &mut E,
) -> Status
    ensures answered { Caused (map string_bytes words.now) (F.state folder.old) (F.state folder.new) (I.state input.old) (I.state input.new) (O.state out.old) (O.state out.new) (E.state err.old) (E.state err.new) result }
    ensures folder { KeepsFiles (F.state folder.old).files (F.state folder.new).files }
    ensures input { TakesBy (read_words (map string_bytes words.now)) (I.state input.old) (I.state input.new) }
{
    match read_words(alloc, words) {
        Err(_) => report(alloc, err, &[], &[], Status::NoMemory),
        Ok(asked) => exec_asked(alloc, asked, words, folder, input, out, err),
    }
}

/// Runs the program of the files that the words name: `exec IN.. [--steps N]`.
///
/// `answered` says for each status when it comes and what it leaves. For words that read it is what `exec_command::exec_words`
/// says. `BadWords` comes exactly where the words don't read. `NoMemory` has no stated cause. `complete` is the converse: where no count
/// of faults rose, the answer is the one that the words, a known folder and a known source require, or `NoMemory`.
pub fn run<F: Folder, I: Source, O: Sink, E: Sink>(
    alloc: Global,
    words: &Vec<String>,
    folder: &mut F,
    input: &mut I,
    out: &mut O,
    err: &mut E,
) -> Status
    ensures answered { Caused (map string_bytes words.now.items) (F.state folder.old) (F.state folder.new) (I.state input.old) (I.state input.new) (O.state out.old) (O.state out.new) (E.state err.old) (E.state err.new) result }
    ensures complete { (files : Files) → (F.state folder.old).files ≡ Some files
        → IsQuiet (F.state folder.old) (F.state folder.new) (I.state input.old) (I.state input.new) (O.state out.old) (O.state out.new) (E.state err.old) (E.state err.new)
        → IsAnswered (read_words (map string_bytes words.now.items)) (map string_bytes words.now.items) files (I.state input.old).left result }

    // The folder stays as it is, and only a run reads the source.
    ensures folder { KeepsFiles (F.state folder.old).files (F.state folder.new).files }
    ensures input { TakesBy (read_words (map string_bytes words.now.items)) (I.state input.old) (I.state input.new) }
{
    answer(alloc, words.as_slice(), folder, input, out, err)
}
