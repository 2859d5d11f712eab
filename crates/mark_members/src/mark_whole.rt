//! All that a type or an assembly has, as descriptors keep it. In go a world with its tables (`mark_tables`) and a row or an
//! assembly; out come facts, as `rules/specs/mark_rules/Roots` lists them.

pub mod accessors;
pub mod assemblies;
pub mod mapped;
pub mod members;
pub mod methods;
