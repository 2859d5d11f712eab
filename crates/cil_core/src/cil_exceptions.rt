//! Members of exceptions: constructors, messages and inner exceptions. In go the arguments, `this` first; out comes what the
//! call comes to, as `rules/specs/step_rules/CoreObjects` has it.

mod cells;
mod constructors;
mod messages;

pub use constructors::{exception_inner, exception_parameter, exception_text};
pub use messages::{get_inner, get_message};
