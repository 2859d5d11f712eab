//! The CustomAttribute rows of the output of a merge (II.22.10): in go a world with its keys (`world_keys`) and the tables of the output;
//! out come the attributes of kept rows whose constructors the output names, what these refer to, and their rows.
//! `rules/specs/merge_rules/Attributes` defines them.

mod attributes;
pub mod laws;
mod met;
mod rows;

pub use attributes::{Attribute, kept_attributes};
pub use met::meet_attributes;
pub use rows::attribute_rows;
