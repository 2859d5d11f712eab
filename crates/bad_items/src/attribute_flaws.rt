//! Custom attributes of an item that have to be readable and aren't (II.22.10, II.23.3). In go a world with its tables
//! (`mark_tables`, `attribute_values`) and an item; out come flaws, as `attribute_flaws` of `rules/specs/mark_rules/BadItems` lists
//! them.

pub mod attributes;
mod readings;
