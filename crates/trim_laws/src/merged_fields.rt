//! A law: the fields that a trim keeps are what they were, with types under new numbers. Nothing goes in or comes out.

pub mod laws;
