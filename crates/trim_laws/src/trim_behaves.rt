//! Laws: what a trim leaves of files loads, links and runs as they do. Nothing goes in or comes out.

pub mod laws;
