//! Members of Console and of arrays. In go the arguments; out comes what the call comes to, as
//! `rules/specs/step_rules/CoreConsole` and `CoreArrays` have it.

mod arrays;
mod elements;
mod lines;
mod prints;

pub use arrays::{array_length, fill_array};
pub use lines::{read_line, read_unit};
pub use prints::{line_end, print};
