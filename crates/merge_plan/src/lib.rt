//! The plan of a merge: the rows of kept items in the order of the output, their new numbers, and the new names of types, or the
//! first collision of two names. `rules/specs/merge_rules` defines each.
#![tactic(auto)]

mod contests;
pub mod first_input_rows;
mod full_names;
mod kept;
pub mod kept_tables;
mod keys;
pub mod method_places;
pub mod moved_parts;
mod new_names;
mod numbers;
pub mod outcome;
mod planning;
mod ranks;
mod rivals;
mod rows;
mod taken;

pub use kept::{KeptItems, Kind};
pub use numbers::Numbers;
pub use planning::plan;
pub use rows::{inputs, is_kept, kept_rows, push_run, rows_of_kind};
