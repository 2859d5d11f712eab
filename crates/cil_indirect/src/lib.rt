//! Loads and stores through managed pointers: `ldind`, `stind`, `ldobj`, `stobj`, `cpobj`, `initobj` (III.3.42, III.3.62, III.4.4,
//! III.4.5, III.4.13, III.4.29). In goes a state at the instruction; out comes what the step comes to, as
//! `rules/specs/step_rules/Indirect` has it.
#![tactic(auto)]

mod accesses;
mod copying;
mod forms;
mod loading;
mod reaching;
mod storing;

pub use forms::indirect;
