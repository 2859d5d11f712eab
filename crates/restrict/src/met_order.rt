//! What the kept types of a merge refer to, in the order in which it is met: in go a world with the numbers of its tokens
//! (`world_keys`) and the kept items, out comes the list that the reference rows of the output are made of. `rules/specs/merge_rules/Order`
//! defines it: the types in order, each its base, interfaces, fields, methods, constraints, properties, events and MethodImpl rows.

pub mod constraints;
mod impls;
mod interfaces;
mod members;
mod rows;
pub mod types;
