//! Where each key of a list stands first. Keys go in, and a map that is made once; a look-up takes no memory.

mod near;
mod places;

pub use places::Places;
