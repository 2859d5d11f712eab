//! `exec` over the outside: in go the names of files, a number of steps, a folder, the source of the input and two sinks; out
//! comes the status of the run of these files' program, whose output and status line are written (`specs/Answer`). `words` reads
//! what the words of a command line ask `exec` for (`specs/Words`).
#![tactic(auto)]

mod execute;
mod input;
mod reporting;
mod words;

pub use execute::{exec_files, exec_words};
pub use words::{ExecWords, begins_with_dash, capped, read_exec, word_at, words_at};
