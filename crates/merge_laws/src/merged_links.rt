//! Laws: what a merge leaves of inputs that link keeps the demands of linking. Nothing goes in or comes out.

pub mod laws;
