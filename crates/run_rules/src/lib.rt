//! What a run of files is, as definitions: for the bytes of files and of the input, what the run prints within a number of steps
//! and how it stands then (`specs/Runs`), and what a run over a sink answers (`specs/Answers`).
#![tactic(auto)]

mod answers;

pub use answers::{EndKind, Ending, ExecFault};
