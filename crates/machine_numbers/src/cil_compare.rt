//! Comparisons of two values of the evaluation stack (III.1.5 table III.4), for the instructions that give 0 or 1 and for the
//! branches. In go a test and the operands; out comes whether it is true of them, as `rules/specs/step_rules/Comparisons` has it.

mod compare;
mod places;
mod test;

pub use compare::is_true;
pub use test::Test;
