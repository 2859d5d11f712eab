//! The texts of signatures as descriptors write them: `RETURN NAME(TYPE,TYPE)` and `TYPE NAME`. In go an assembly of a world, the
//! names of the world's types (`slashed_names`) and a type; out comes its text, as `rules/specs/mark_rules/Roots` has it.

pub mod members;
mod params;
pub mod spelling;
mod types;
