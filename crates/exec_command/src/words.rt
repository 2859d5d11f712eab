//! The words of `exec`, read from left to right.

ghost use Rattle.std.specs.Prelude.{◌≡◌, ◌≤◌, ◌+◌, ◌-◌, ◌*◌, IfOk, map, length, drop, true};
ghost use Rattle.std.specs.List.{list_all};
ghost use Rattle.std.specs.String.{string_bytes};
ghost use Rattle.exec_command.specs.Words.{word_at, capped, is_digit, value_of, number_of, begins_with_dash, word_step, take_option, take_name, take_value, rest_of, finish, finished, read_exec, begin};

use il_base::{NoMemory, Seq};
use std::alloc::Global;

/// What the words of `exec` ask for: `exec IN.. [--steps N]`. Words are named by their places, counted from 0.
#[derive(Drop)]
pub struct ExecWords {
    pub inputs: Seq<usize>,
    pub steps: u64,
}

/// The state of reading the words after `exec`.
#[derive(Drop)]
pub(crate) struct Progress {
    /// Whether the word `--` was read: every later word is a name.
    pub(crate) names_only: bool,
    /// Whether the next word is the value of `--steps`.
    pub(crate) expects: bool,
    pub(crate) steps: Option<u64>,
    pub(crate) inputs: Seq<usize>,
}

/// The word at a place.
pub fn word_at(words: &[String], at: usize) -> &str
    ensures { result.now ≡ word_at (map string_bytes words.now) at }
{
    match words.get(at) {
        None => "",
        Some(word) => word.as_str(),
    }
}

/// The words at these places.
pub fn words_at(alloc: Global, words: &[String], places: &[usize]) -> Result<Vec<String>, NoMemory>
    ensures { IfOk result (λ names. map string_bytes names.items ≡ map (word_at (map string_bytes words.now)) places.now) }
{
    let mut names = Vec::new(alloc);
    for at in places {
        let name = String::from_str(alloc, word_at(words, *at))?;
        names.push(name)?;
    }
    Ok(names)
}

/// A place in a status: a number past 4294967295 becomes 4294967295.
pub fn capped(at: usize) -> u32
    ensures { result ≡ capped at }
{
    if at > 4_294_967_295 {
        4_294_967_295
    } else {
        at as u32
    }
}

/// The steps that `exec` makes where the words don't say.
const DEFAULT_STEPS: u64 = 100_000_000;

fn all_digits(word: &[u8]) -> bool
    ensures { result ≡ list_all is_digit word.now }
{
    word.iter().all(|b| b'0' <= *b && *b <= b'9')
}

fn with_digit(value: u64, b: u8) -> u64
    requires small { value ≤ 99999999999 }
    requires digit { is_digit b ≡ true }
    ensures { result ≡ value * 10 + (b - 48) }
{
    value * 10 + u64::from(b - b'0')
}

/// The number that decimal digits spell.
#[tactic(auto, using(crate::proofs::DigitLemmas::digits))]
fn value_of(word: &[u8]) -> u64
    requires short { length word.now ≤ 12 }
    requires digits { list_all is_digit word.now ≡ true }
    ensures { result ≡ value_of 0 word.now }
{
    let mut value = 0u64;
    for b in word {
        value = with_digit(value, *b);
    }
    value
}

/// A number of 1 to 12 decimal digits.
#[tactic(auto, unfolding(crate::specs::Words::number_of))]
fn number_of(word: &[u8]) -> Option<u64>
    ensures { result ≡ number_of word.now }
{
    if word.is_empty() || word.len() > 12 || !all_digits(word) {
        return None;
    }
    Some(value_of(word))
}

fn take_value(progress: Progress, number: Option<u64>) -> Option<Progress>
    ensures { result ≡ take_value progress number }
{
    match number {
        None => None,
        Some(steps) => Some(Progress {
            names_only: progress.names_only,
            expects: false,
            steps: Some(steps),
            inputs: progress.inputs,
        }),
    }
}

fn take_option(progress: Progress, word: &[u8]) -> Option<Progress>
    ensures { result ≡ take_option progress word.now }
{
    if word == b"--".as_slice() {
        return Some(Progress {
            names_only: true,
            expects: progress.expects,
            steps: progress.steps,
            inputs: progress.inputs,
        });
    }
    if word == b"--steps".as_slice() && progress.steps.is_none() {
        return Some(Progress {
            names_only: progress.names_only,
            expects: true,
            steps: progress.steps,
            inputs: progress.inputs,
        });
    }
    None
}

fn take_name(progress: Progress, at: usize, word: &[u8]) -> Result<Option<Progress>, NoMemory>
    ensures { IfOk result (λ next. next ≡ take_name progress at word.now) }
{
    if word.is_empty() {
        return Ok(None);
    }
    let mut inputs = progress.inputs;
    inputs.push(at)?;
    Ok(Some(Progress {
        names_only: progress.names_only,
        expects: progress.expects,
        steps: progress.steps,
        inputs,
    }))
}

/// Whether a word can be an option.
pub fn begins_with_dash(word: &[u8]) -> bool
    ensures { result ≡ begins_with_dash word.now }
{
    match word {
        [] => false,
        [first, ..] => *first == b'-',
    }
}

/// The state after one more word, at place `at`; None where the word is bad.
#[tactic(auto, unfolding(crate::specs::Words::word_step))]
fn word_step(progress: Progress, at: usize, word: &[u8]) -> Result<Option<Progress>, NoMemory>
    ensures { IfOk result (λ next. next ≡ word_step progress at word.now) }
{
    if progress.expects {
        return Ok(take_value(progress, number_of(word)));
    }
    if !progress.names_only && begins_with_dash(word) {
        return Ok(take_option(progress, word));
    }
    take_name(progress, at, word)
}

#[tactic(auto, unfolding(crate::specs::Words::finish))]
fn finish(words: usize, progress: Progress) -> Result<ExecWords, usize>
    ensures { result ≡ finish words progress }
{
    if progress.expects {
        return Err(words);
    }
    if progress.inputs.is_empty() {
        return Err(words);
    }
    match progress.steps {
        None => Ok(ExecWords {
            inputs: progress.inputs,
            steps: DEFAULT_STEPS,
        }),
        Some(steps) => Ok(ExecWords {
            inputs: progress.inputs,
            steps,
        }),
    }
}

/// The state after the words that follow `exec`, read from left to right.
fn rest_of(alloc: Global, words: &[String]) -> Result<Result<Progress, usize>, NoMemory>
    ensures { IfOk result (λ r. r ≡ rest_of 1 (map string_bytes (drop 1 words.now)) begin) }
{
    let mut progress = Progress {
        names_only: false,
        expects: false,
        steps: None,
        inputs: Seq::new(alloc),
    };
    for at in 1..words.len() {
        match word_step(progress, at, words[at].as_bytes()) {
            Err(error) => return Err(error),
            Ok(None) => return Ok(Err(at)),
            Ok(Some(next)) => progress = next,
        }
    }
    Ok(Ok(progress))
}

/// What the words after the first ask for.
fn after_first(alloc: Global, words: &[String]) -> Result<Result<ExecWords, usize>, NoMemory>
    requires { 1 ≤ length words.now }
    ensures { IfOk result (λ r. r ≡ finished (length words.now) (rest_of 1 (map string_bytes (drop 1 words.now)) begin)) }
{
    match rest_of(alloc, words)? {
        Err(at) => Ok(Err(at)),
        Ok(progress) => Ok(finish(words.len(), progress)),
    }
}

/// What the words after the first, `exec`, ask for, or the place of the first bad word; where a word is missing, the number of words.
pub fn read_exec(alloc: Global, words: &[String]) -> Result<Result<ExecWords, usize>, NoMemory>
    ensures { IfOk result (λ r. r ≡ read_exec (map string_bytes words.now)) }
{
    match words {
        [] => Ok(Err(0)),
        [_, ..] => after_first(alloc, words),
    }
}
