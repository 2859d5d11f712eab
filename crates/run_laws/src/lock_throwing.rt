//! Laws of exceptions: where two worlds agree, the search for a handler and the way there keep step, and so do the instructions
//! of exceptions. Each law is the contract of a function with an empty body.

pub mod laws;
