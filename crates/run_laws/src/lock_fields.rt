//! Laws of fields and texts: where two worlds agree, accesses to fields keep step, and so does `ldstr`. The law is the contract of a
//! function with an empty body.

pub mod laws;
