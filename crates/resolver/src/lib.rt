//! Linking: in go the records of assemblies, out comes the world that they make with the core library, or the first demand
//! that they fail. `rules/specs/link_rules/Linked` defines both.
#![tactic(auto)]

mod assemblies;
pub mod core_names;
mod homes;
mod kind;
mod linking;
pub mod member_links;
pub mod type_links;

pub use linking::link;
