//! Runs of the program of files: in go the bytes of files and of the input, out comes what the run prints and how it ends
//! (`run_rules/specs/Runs`), or the first limit or demand that the files don't meet (`inputs`).
#![tactic(auto)]

mod collect;
mod execute;
mod fault;
mod names;
mod running;
mod worlds;

pub use execute::{exec, exec_to};
pub use names::assembly_name;
