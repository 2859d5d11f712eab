//! What the machine asks of a world, as a trait. The answers are those of `rules/specs/step_rules/Queries`.

mod answers;

pub use answers::{Answers, ObjectSlots};
