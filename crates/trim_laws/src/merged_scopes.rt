//! Laws: what the output of a merge refers to stands in what is left. Nothing goes in or comes out.

pub mod laws;
