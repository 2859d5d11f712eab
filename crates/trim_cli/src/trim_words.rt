//! Reading the words of `trim`, from left to right.

ghost use Rattle.std.specs.Prelude.{◌≡◌, ◌≤◌, IfOk, map, length, drop};
ghost use Rattle.std.specs.String.{string_bytes};
ghost use Rattle.exec_command.specs.Words.{word_at};
ghost use Rattle.trim_cli.specs.Words.{is_at, take_trim_option, take_trim_name, take_descriptor, take_list, trim_step, trim_rest, trim_finish, trim_finished, trim_begin};

use crate::command::{Awaited, Command, TrimProgress};
use exec_command::{begins_with_dash, word_at};
use il_base::{NoMemory, Seq};
use std::alloc::Global;

/// Whether the word at a place that was read, if one was, is this one.
fn is_at(words: &[String], at: Option<usize>, word: &[u8]) -> bool
    ensures { result ≡ is_at (map string_bytes words.now) at word.now }
{
    match at {
        None => false,
        Some(at) => word_at(words, at).as_bytes() == word,
    }
}

/// `--`, and the options, of which `--descriptor` alone may come again.
fn take_option(progress: TrimProgress, word: &[u8]) -> Option<TrimProgress>
    ensures { result ≡ take_trim_option progress word.now }
{
    if word == b"--".as_slice() {
        return Some(TrimProgress {
            names_only: true,
            awaits: progress.awaits,
            output: progress.output,
            inputs: progress.inputs,
            descriptors: progress.descriptors,
            list: progress.list,
            internalize: progress.internalize,
        });
    }
    if word == b"--descriptor".as_slice() {
        return Some(awaiting(progress, Awaited::Descriptor));
    }
    if word == b"--internalize".as_slice() && !progress.internalize {
        return Some(TrimProgress {
            names_only: progress.names_only,
            awaits: progress.awaits,
            output: progress.output,
            inputs: progress.inputs,
            descriptors: progress.descriptors,
            list: progress.list,
            internalize: true,
        });
    }
    if word == b"--keep-list".as_slice() && progress.list.is_none() {
        return Some(awaiting(progress, Awaited::KeepList));
    }
    None
}

/// The same, where the next word is the value of an option.
fn awaiting(progress: TrimProgress, awaits: Awaited) -> TrimProgress
    ensures { result ≡ record progress { awaits = awaits } }
{
    TrimProgress {
        names_only: progress.names_only,
        awaits,
        output: progress.output,
        inputs: progress.inputs,
        descriptors: progress.descriptors,
        list: progress.list,
        internalize: progress.internalize,
    }
}

/// OUT, which differs from the keep list, and then each IN.
fn take_name(
    words: &[String],
    progress: TrimProgress,
    at: usize,
    word: &[u8],
) -> Result<Option<TrimProgress>, NoMemory>
    ensures { IfOk result (λ next. next ≡ take_trim_name (map string_bytes words.now) progress at word.now) }
{
    if word.is_empty() {
        return Ok(None);
    }
    if !progress.output.is_none() {
        let mut inputs = progress.inputs;
        inputs.push(at)?;
        return Ok(Some(TrimProgress {
            names_only: progress.names_only,
            awaits: progress.awaits,
            output: progress.output,
            inputs,
            descriptors: progress.descriptors,
            list: progress.list,
            internalize: progress.internalize,
        }));
    }
    if is_at(words, progress.list, word) {
        return Ok(None);
    }
    Ok(Some(TrimProgress {
        names_only: progress.names_only,
        awaits: progress.awaits,
        output: Some(at),
        inputs: progress.inputs,
        descriptors: progress.descriptors,
        list: progress.list,
        internalize: progress.internalize,
    }))
}

fn take_descriptor(
    progress: TrimProgress,
    at: usize,
    word: &[u8],
) -> Result<Option<TrimProgress>, NoMemory>
    ensures { IfOk result (λ next. next ≡ take_descriptor progress at word.now) }
{
    if word.is_empty() {
        return Ok(None);
    }
    let mut descriptors = progress.descriptors;
    descriptors.push(at)?;
    Ok(Some(TrimProgress {
        names_only: progress.names_only,
        awaits: Awaited::Word,
        output: progress.output,
        inputs: progress.inputs,
        descriptors,
        list: progress.list,
        internalize: progress.internalize,
    }))
}

/// The keep list, which differs from OUT.
fn take_list(
    words: &[String],
    progress: TrimProgress,
    at: usize,
    word: &[u8],
) -> Option<TrimProgress>
    ensures { result ≡ take_list (map string_bytes words.now) progress at word.now }
{
    if word.is_empty() {
        return None;
    }
    if is_at(words, progress.output, word) {
        return None;
    }
    Some(TrimProgress {
        names_only: progress.names_only,
        awaits: Awaited::Word,
        output: progress.output,
        inputs: progress.inputs,
        descriptors: progress.descriptors,
        list: Some(at),
        internalize: progress.internalize,
    })
}

/// One word, at place `at`; None where it is bad.
#[tactic(auto, unfolding(crate::specs::Words::trim_step))]
fn word_step(
    words: &[String],
    progress: TrimProgress,
    at: usize,
    word: &[u8],
) -> Result<Option<TrimProgress>, NoMemory>
    ensures { IfOk result (λ next. next ≡ trim_step (map string_bytes words.now) progress at word.now) }
{
    match progress.awaits {
        Awaited::Descriptor => take_descriptor(progress, at, word),
        Awaited::KeepList => Ok(take_list(words, progress, at, word)),
        Awaited::Word => {
            if !progress.names_only && begins_with_dash(word) {
                Ok(take_option(progress, word))
            } else {
                take_name(words, progress, at, word)
            }
        }
    }
}

/// The words after the command's, from left to right.
fn rest_of(alloc: Global, words: &[String]) -> Result<Result<TrimProgress, usize>, NoMemory>
    ensures { IfOk result (λ r. r ≡ trim_rest (map string_bytes words.now) 1 (map string_bytes (drop 1 words.now)) trim_begin) }
{
    let mut progress = TrimProgress {
        names_only: false,
        awaits: Awaited::Word,
        output: None,
        inputs: Seq::new(alloc),
        descriptors: Seq::new(alloc),
        list: None,
        internalize: false,
    };
    for at in 1..words.len() {
        match word_step(words, progress, at, words[at].as_bytes()) {
            Err(error) => return Err(error),
            Ok(None) => return Ok(Err(at)),
            Ok(Some(next)) => progress = next,
        }
    }
    Ok(Ok(progress))
}

fn finish(words: usize, progress: TrimProgress) -> Result<Command, usize>
    ensures { result ≡ trim_finish words progress.awaits progress.output progress }
{
    match progress.awaits {
        Awaited::Descriptor => Err(words),
        Awaited::KeepList => Err(words),
        Awaited::Word => match progress.output {
            None => Err(words),
            Some(output) => {
                if progress.inputs.is_empty() {
                    Err(words)
                } else {
                    Ok(Command::Trim {
                        output,
                        inputs: progress.inputs,
                        descriptors: progress.descriptors,
                        list: progress.list,
                        internalize: progress.internalize,
                    })
                }
            }
        },
    }
}

/// The words after `trim`.
pub(crate) fn trim_words(
    alloc: Global,
    words: &[String],
) -> Result<Result<Command, usize>, NoMemory>
    requires { 1 ≤ length words.now }
    ensures { IfOk result (λ r. r ≡ trim_finished (length words.now) (trim_rest (map string_bytes words.now) 1 (map string_bytes (drop 1 words.now)) trim_begin)) }
{
    match rest_of(alloc, words)? {
        Err(at) => Ok(Err(at)),
        Ok(progress) => Ok(finish(words.len(), progress)),
    }
}
