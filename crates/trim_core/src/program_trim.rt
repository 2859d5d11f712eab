//! The trim of a linked world. In go the world that a link gave, an entry method by its row, the elements of descriptors, and
//! whether public types become internal; out comes the trimmed file, with the keep list, or the first refusal. `specs/program_trim/Trim`
//! defines the answer.

mod answers;
mod planning;
mod program;
mod trimming;
mod writing;

pub use answers::{ProgramTrim, TrimFault};
pub use trimming::trim_world;
