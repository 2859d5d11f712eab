//! Places that managed pointers lead to (I.12.3.2.1): what is there, and a store to one. Each answer is that of
//! `rules/specs/step_rules/Places`.

mod boxes;
mod cells;
mod frames;
mod globals;
mod objects;
mod places;
mod structs;

pub use boxes::boxed_value;
pub use cells::{cell_in, cell_of, cell_place, with_cell};
pub use frames::{frame_with, has_ended};
pub use globals::{global_of, with_global};
pub use places::{place_value, put_place};
pub use structs::{part_of, put_in, value_in};
