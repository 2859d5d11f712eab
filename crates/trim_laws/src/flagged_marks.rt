//! A law: the flags by which the worlds of a merge are compared follow the rules of marking. Nothing goes in or comes out.

pub mod laws;
