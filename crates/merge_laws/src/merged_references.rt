//! Laws on what references of a merge's output name, in the world of the output alone. Nothing goes in or comes out.

pub mod laws;
