//! Laws: what a merge leaves of inputs that link links alone. Nothing goes in or comes out.

pub mod laws;
