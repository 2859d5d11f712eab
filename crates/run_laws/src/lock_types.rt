//! Laws of types and vectors: where two worlds agree, casts, boxes, handles, and the forms on arrays keep step. The law is the
//! contract of a function with an empty body.

pub mod laws;
