//! What the descriptors of a trim keep: the embedded ones of the inputs and the named files go in, and the elements come out that name
//! what is kept, or the first descriptor that can't be read (`specs/Roots`).
#![tactic(auto)]

mod error;
mod reading;

pub use error::RootsError;
pub use reading::{descriptor_roots, within_length};
