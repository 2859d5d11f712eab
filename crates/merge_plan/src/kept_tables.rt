//! The tables that go with kept items: in go the assemblies of a world and the kept items, out come the rows of each table in
//! the order of the output, and the token that each kept row has there. `rules/specs/merge_rules/Rows` defines both.

pub mod coded;
mod constraints;
mod generics;
mod interfaces;
pub mod laws;
pub mod order;
mod params;
mod places;
pub mod tables;
