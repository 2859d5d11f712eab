//! Vectors (I.8.9.1, III.4.7 to III.4.9, III.4.12, III.4.20, III.4.26, III.4.27). In go a state and an instruction; out come
//! the next state and how the step ended, as `rules/specs/step_rules/Arrays` has it.

mod accesses;
mod addresses;
mod elements;
mod indices;
mod loads;
mod making;
mod stores;
mod vectors;

pub use elements::element_form;
pub use making::new_array;
