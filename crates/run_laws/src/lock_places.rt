//! Laws of places: where two worlds agree, operands with the running method's arguments put in, the values of places and stores to
//! them keep step, and so do loads and stores through pointers. Each law is the contract of a function with an empty body.

pub mod laws;
