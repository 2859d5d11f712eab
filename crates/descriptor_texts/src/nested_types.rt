//! The types that are nested in a type (II.22.32), by an index that is made once. In goes a world with its tables (`mark_tables`);
//! out come rows, as `nested_in` of `rules/specs/mark_rules/Members` lists them.

pub mod nested;
