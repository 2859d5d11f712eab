//! The TypeDef rows of the output of a merge (II.22.37): in go the assemblies of a world, the new tokens of each, the plan and the
//! kept rows; out come the rows of the kept types, with their new names. `rules/specs/merge_rules/Moved` defines them (`moved_type_row`).

pub mod laws;
mod names;
mod rows;
mod visibility;

pub use rows::type_defs;
