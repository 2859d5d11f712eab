//! Rows of the output that go with kept rows, sorted by their new keys: in go the assemblies of a world and the tables of the
//! output, out come constants, layouts of classes, nesting and accessors. `rules/specs/merge_rules/Restricted` defines them.

pub mod class_layouts;
pub mod constants;
pub mod laws;
pub mod method_semantics;
pub mod nested_classes;
