//! Laws: what parts of kept items name of the core library is in the world of a merge's output. Nothing goes in or comes out.

pub mod laws;
