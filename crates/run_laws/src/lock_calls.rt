//! Laws of calls: where two worlds agree, calls, new objects, prefixes and returns keep step. The law is the contract of a function
//! with an empty body.

pub mod laws;
