//! Casts, boxes and handles (III.4.1, III.4.3, III.4.6, III.4.17, III.4.32, III.4.33). In go a state and an instruction; out
//! come the next state and how the step ended, as `rules/specs/step_rules/Types` has it.

mod boxes;
mod casts;
mod handles;
mod unboxes;

pub use boxes::box_value;
pub use casts::cast;
pub use handles::load_token;
pub use unboxes::{boxed_of, unbox};
