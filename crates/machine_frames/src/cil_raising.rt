//! Exceptions (I.12.4.2): the search for a handler over all frames, and the way there through finally and fault handlers. In
//! goes a state at the instruction that raises; out comes what the step comes to, as `rules/specs/step_rules/Raising` has it.

mod clauses;
mod handlers;
mod inits;
mod search;
mod unwinding;
mod wrapping;

pub use clauses::{is_catch, is_finally, is_in_handler, is_in_try};
pub use handlers::{handler_begins, still_running};
pub use inits::set_init;
pub use search::{raise, throw};
pub use unwinding::unwind;
