//! Laws of numbers: where two worlds agree, arithmetic, comparisons, conversions and branches keep step. The law is the contract of
//! a function with an empty body.

pub mod laws;
