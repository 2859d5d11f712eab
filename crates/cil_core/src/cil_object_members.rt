//! Members of Object and of the numbers. In go the arguments, `this` first; out comes what the call comes to, as
//! `rules/specs/step_rules/CoreObjects` has it.

mod number_texts;
mod numbers;
mod objects;
mod type_texts;

pub use number_texts::number_text;
pub use numbers::{int_compare, int_equals, number_is};
pub use objects::{halt, idle, is_same, same};
pub use type_texts::type_name;
pub(crate) use type_texts::units_of_bytes;
