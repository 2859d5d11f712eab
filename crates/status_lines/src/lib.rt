//! How the program answers: in goes a status, with the name of the assembly that a place is in and the name of a file; out come
//! the code that the program ends with and one line of text (`specs/Lines`), written to a sink (`specs/Reports`).
#![tactic(auto)]

mod lines;
mod reporting;
mod status;

pub use reporting::report;
pub use status::Status;
