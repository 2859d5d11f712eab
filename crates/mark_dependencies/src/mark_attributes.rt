//! The items that the custom attributes of a marked item mark. In go a world with its tables (`mark_tables`, `attribute_values`)
//! and an item; out come facts, as `attribute_needs` of `rules/specs/mark_rules/Attributes` lists them.

pub mod needs;
pub mod rows;
pub mod values;
