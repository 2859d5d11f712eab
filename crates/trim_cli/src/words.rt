//! Reading the program's words, from left to right.

ghost use Rattle.std.specs.Prelude.{◌≡◌, IfOk, map};
ghost use Rattle.std.specs.String.{string_bytes};
ghost use Rattle.trim_cli.specs.Words.{exec_of, read_words};

use crate::command::Command;
use crate::trim_words::trim_words;
use exec_command::{ExecWords, read_exec};
use il_base::NoMemory;
use std::alloc::Global;

/// The command `exec`.
fn exec_of(asked: Result<ExecWords, usize>) -> Result<Command, usize>
    ensures { result ≡ exec_of asked }
{
    match asked {
        Err(at) => Err(at),
        Ok(asked) => Ok(Command::Exec {
            inputs: asked.inputs,
            steps: asked.steps,
        }),
    }
}

/// The command that the words spell, or the place of the first bad word; where a word is missing, the number of words.
#[tactic(auto, unfolding(crate::specs::Words::read_words))]
pub(crate) fn read_words(
    alloc: Global,
    words: &[String],
) -> Result<Result<Command, usize>, NoMemory>
    ensures { IfOk result (λ r. r ≡ read_words (map string_bytes words.now)) }
{
    match words {
        [] => Ok(Err(0)),
        [first, ..] => {
            if first.as_bytes() == b"exec".as_slice() {
                Ok(exec_of(read_exec(alloc, words)?))
            } else if first.as_bytes() == b"trim".as_slice() {
                trim_words(alloc, words)
            } else {
                Ok(Err(0))
            }
        }
    }
}
