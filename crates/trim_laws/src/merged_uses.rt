//! Laws on what tokens of members that a merge writes name, in the world of the output alone. Nothing goes in or comes out.

pub mod laws;
