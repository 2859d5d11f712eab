//! The words in which the machine's instructions are written: what a step comes to, how it goes on, and how it ends a run.
//! Each is that of `rules/specs/step_rules/Words`.

mod body;
mod ends;
mod moves;
mod step_out;

pub use body::Body;
pub use ends::{stopped, stuck};
pub use moves::{branches, goes, may_go};
pub use step_out::StepOut;
