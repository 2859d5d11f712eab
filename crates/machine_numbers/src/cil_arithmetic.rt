//! Arithmetic on integers of 32 and 64 bits (III.3.1 to III.3.3, III.3.31, III.3.32, III.3.48, III.3.49, III.3.53, III.3.55,
//! III.3.56, III.3.64, III.3.65, III.3.67). In go an opcode and two numbers; out comes a number or the exception that is
//! raised, as `rules/specs/step_rules/Numbers` has it.

mod answer;
mod int32;
mod int64;
mod outcome;

pub use answer::Answer;
pub use int32::arithmetic32;
pub use int64::arithmetic64;
pub use outcome::Outcome;
