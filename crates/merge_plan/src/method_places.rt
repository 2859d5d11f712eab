//! The places of the method bodies of a record (II.25.4): in go MethodDef rows, out come the rows with the addresses of their bodies
//! (II.22.26), and how many bytes these take. `rules/specs/merge_rules/Restricted` defines them (`placed_methods`).

pub mod laws;
mod lengths;
mod places;

pub use places::{Placed, placed_methods};
