//! The full names of types with `/` before the name of a nested type, made once. In goes a world with its tables (`mark_tables`);
//! out come names, as `slashed_name` and `definition_slashed` of `rules/specs/mark_rules/Roots` have them.

mod chain;
pub mod names;
