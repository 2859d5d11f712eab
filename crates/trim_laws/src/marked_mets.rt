//! Laws: what the output of a merge that keeps exactly what is marked meets of its inputs is kept. Nothing goes in or comes out.

pub mod laws;
