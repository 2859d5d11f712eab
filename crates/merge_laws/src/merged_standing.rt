//! Laws: what the output of a merge refers to has rows. Nothing goes in or comes out.

pub mod laws;
