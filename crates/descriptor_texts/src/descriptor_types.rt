//! Types by the names that descriptors give them: full names with `/` before the name of a nested type. In go a world with its
//! tables (`mark_tables`) and the names of its types (`slashed_names`); out come rows, as `descriptor_type` of
//! `rules/specs/mark_rules/Roots` has them.

mod rows;
pub mod types;
