//! The machine over a world (III.1.3, II.15.4.1.2): how a run begins at its entry method, and a step of it. In go a world, an
//! entry and the bytes of the input; out come states, ends and what each step prints, as `rules/specs/step_rules/Run` has it.
#![tactic(auto)]

mod beginning;
mod entry_form;
mod quiet;
mod stepping;

pub use beginning::{Beginning, begin};
pub use quiet::quiet_steps;
pub use stepping::step;
