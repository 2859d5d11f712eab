//! The members of a type by their kinds, as annotations and dependencies name them. In go a world with its tables (`mark_tables`),
//! a row of a type and kinds (`rules::mark_rules::member_kinds`); out come rows, as `rules/specs/mark_rules/Members` lists them.

pub mod counts;
pub mod fields;
pub mod impls;
pub mod lineage;
pub mod mapped;
pub mod methods;
