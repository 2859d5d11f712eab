//! `call` and `callvirt` (III.3.19, III.4.2), and the prefixes before other instructions (III.2). In goes a state at the
//! instruction; out comes what the step comes to, with the bytes that it printed, as `rules/specs/step_rules/Calls` has it.

mod calling;
mod constrained;
mod prefixes;
mod receiving;

pub use calling::call;
pub use prefixes::prefix;
