//! TypeRef rows that name nothing (II.22.38). In go the assemblies of a world and their types by name; out comes the place of each
//! such row after the types of the world. It is the place of the first TypeRef row of the inputs that reads the same.
//! `rules/specs/merge_rules/Absent` defines both.

mod named;
mod reading;
pub mod references;
pub mod rows;
mod scopes;
