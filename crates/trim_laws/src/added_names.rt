//! Laws on the types of the core library that the output of a merge refers to, and on what its tokens and signatures name. Nothing goes in
//! or comes out.

pub mod laws;
