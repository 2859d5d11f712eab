//! A law: the file that is written of what a trim leaves has that record. Nothing goes in or comes out.

pub mod laws;
