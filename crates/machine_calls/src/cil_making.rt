//! `newobj` (III.4.21), and `ldstr` (III.4.16) with its one object for each text. In goes a state at the instruction; out comes
//! what the step comes to, with the bytes that it printed, as `rules/specs/step_rules/Calls` and `Texts` have it.

mod making;
mod texts;

pub use making::new_object;
pub use texts::load_string;
