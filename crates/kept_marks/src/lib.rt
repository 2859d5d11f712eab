//! What a trim keeps by a marked set, and which types it shows: a flag for each item and each type of a world.
#![tactic(auto)]

mod flags;
mod keeping;

pub use keeping::{kept_items, shown_types};
