//! The numbers of the types that the tokens of an assembly name, made once for all its rows: in go an assembly of a world and the
//! references of the inputs that name nothing, out come maps from tokens to numbers. `rules/specs/merge_rules/Keys` says what the numbers
//! are: one more than the place of a type among those of the world.

mod maps;
mod numbers;

pub use maps::type_numbers;
pub use numbers::{class_number, modifier_number};
