//! Laws: what a trim of files leaves can always be written. Nothing goes in or comes out.

pub mod laws;
