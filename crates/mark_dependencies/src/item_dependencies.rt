//! The dependencies that custom attributes give a method or a field. In go a world with what its attributes are read by
//! (`mark_tables`, `attribute_values`) and an item; out come its dependencies (`dependency_forms`), as
//! `rules/specs/mark_rules/Annotations` lists them.

mod arguments;
pub mod items;
mod rows;
