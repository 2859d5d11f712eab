//! Instructions on numbers: arithmetic, bits, shifts, comparisons and conversions (III.1.5, III.3). In goes a state at the
//! instruction; out comes what the step comes to, as `rules/specs/step_rules/Numbers` has it.

mod comparisons;
mod numbers;
mod shifts;
mod two_operands;

pub use numbers::{binary, convert, unary};
