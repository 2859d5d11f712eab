//! The fields and setters that the value of a custom attribute names. In go a world with its tables (`mark_tables`), the
//! attribute's type and named arguments; out come facts, as `rules/specs/mark_rules/Attributes` lists them.

pub mod fields;
pub mod named;
pub mod nearest;
pub mod properties;
pub mod setters;
