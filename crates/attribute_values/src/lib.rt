//! The values of custom attributes (II.23.3). In go an assembly of a world, with the tables of the world, and a row of
//! CustomAttribute; out comes its value, or that it has no reading, as `value_of` of `rules/specs/mark_rules/Attributes` has it.
#![tactic(auto)]

pub mod attribute_kinds;
pub mod attribute_rows;
pub mod attribute_types;
pub mod dependency_forms;
pub mod enum_names;
pub mod reader;
pub mod tables;
pub mod trimming_attributes;
pub mod values;
