//! Laws: the tokens of what a merge leaves name rows, where exactly what is marked is kept. Nothing goes in or comes out.

pub mod laws;
