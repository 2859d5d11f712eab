//! The files that a run or a trim is given, as the world that they make: their bytes go in, and a world comes out, or the
//! first limit or demand that they don't meet (`specs/Files`).
#![tactic(auto)]

mod error;
mod limits;
mod records;
mod take;

pub use error::InputError;
pub use limits::within_limits;
pub use take::take_files;
