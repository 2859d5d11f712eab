//! The rows of members in the output: in go the assemblies of a world, the new tokens of each and the kept rows, out come the
//! Field, MethodDef, Param, Property and Event rows. `rules/specs/merge_rules/Restricted` defines them.

pub mod events;
pub mod fields;
mod found;
pub mod laws;
pub mod methods;
pub mod params;
pub mod properties;
