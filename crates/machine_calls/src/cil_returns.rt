//! `ret` (III.3.57): back to the caller, which goes on after its call, or to what waits for the method's end; and how the entry
//! method begins. In goes a state at the instruction; out comes what the step comes to, with the bytes that it printed, as
//! `rules/specs/step_rules/Returns` has it.

mod back;
mod copies;
mod current;
mod entry;
mod returning;

pub use current::{Current, running};
pub use entry::entry_begins;
pub use returning::return_form;
