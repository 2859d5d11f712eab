//! The sizes of enums' underlying types (II.14.3), by which the values of custom attributes are read. In go a world with its tables
//! (`mark_tables`) and the row of a type; out comes a size in bytes, as `rules/specs/mark_rules/Attributes` has it.

pub mod enums;
pub mod prims;
