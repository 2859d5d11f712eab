//! The signatures and names of members by their ids: in go the assemblies of a world, the numbers of the types that the tokens of each
//! name, and a member; out come its own signature over the types of the world and its own name. `rules/specs/merge_rules/Refs` defines
//! them.

pub mod fields;
pub mod methods;
