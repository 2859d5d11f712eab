//! The rows of CustomAttribute that belong to an item (II.22.10). In go an assembly with its tables (`mark_tables`), an item and
//! its row; out come rows of CustomAttribute in their order, those that `attributes_of` of `rules/specs/mark_rules/Attributes`
//! lists.

pub mod rows;
pub mod tokens;
