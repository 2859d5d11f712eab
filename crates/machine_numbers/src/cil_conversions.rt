//! Conversions of numbers (III.3.27 to III.3.29). In go an opcode and a value; out comes the converted value or the exception
//! that is raised, as `rules/specs/step_rules/Numbers` has it.

mod bits;
mod conversion;
mod converting;
mod wide;

pub use bits::number_of_bits;
pub use converting::convert_of;
