//! Laws: what a trim leaves can be written, since each signature and body of it has a spelling. Nothing goes in or comes out.

pub mod laws;
