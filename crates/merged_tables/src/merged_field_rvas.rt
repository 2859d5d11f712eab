//! The FieldRVA rows of the output (II.22.18): in go the assemblies of a world, the tables of the output and how many bytes are
//! before those of fields, out come the rows of kept fields with their new addresses. `rules/specs/merge_rules/Restricted` defines them.

pub mod field_rvas;
pub mod laws;
mod placing;
