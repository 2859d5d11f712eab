//! The MethodImpl rows of the output of a merge (II.22.27). In go a world with its tables, the kept items with the tables of the
//! output, and the new tokens of each assembly; out come the rows of kept classes whose body is kept or the core library's.
//! `rules/specs/merge_rules/Restricted` defines them.

mod bodies;
pub mod laws;
mod rows;

pub use rows::method_impls;
