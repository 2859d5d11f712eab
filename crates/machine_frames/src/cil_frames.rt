//! Methods are entered (I.12.4.1), and initializers begin (II.10.5.3). In goes a state at the instruction that calls or
//! accesses; out comes what the step comes to, as `rules/specs/step_rules/Frames` has it.

mod entering;
mod heads;
mod locals;
mod starting;

pub use entering::{copy_use, enter, enter_with};
pub use heads::{definition_of, head_has, head_of, is_abstract_type};
pub use locals::zero_locals;
pub use starting::{initializer, started};
