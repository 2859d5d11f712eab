//! Laws of the members of the core library: where two worlds agree, a call of each keeps step. The law is the contract of a function
//! with an empty body.

pub mod laws;
