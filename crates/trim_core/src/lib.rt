//! Trims the program of several files: in go the bytes of files and of descriptors, out come those of the trimmed file, with the
//! keep list, or the first refusal (`specs/Told`). `specs/Trim` defines the answer.
#![tactic(auto)]

mod answers;
mod colliding;
mod digits;
mod program;
pub mod program_trim;
mod taking;
mod trimming;

pub use answers::{Opts, Refusal, Trimmed};
pub use colliding::collision_text;
pub use trimming::trim;
