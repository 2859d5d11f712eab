//! Instructions of exceptions: `throw` and `rethrow`, `leave`, `endfinally` (III.4.31, III.4.24, III.3.46, III.3.35). In goes a
//! state at the instruction; out comes what the step comes to, as `rules/specs/step_rules/Throws` has it.

mod innermost;
mod leaving;
mod reasons;
mod throwing;

pub use leaving::{end_finally, leave};
pub use throwing::throw_form;
