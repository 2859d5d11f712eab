//! The TypeSpec and StandAloneSig rows of the output: in go the signatures over the types of the world that a merge meets, each
//! once, and the new tokens of types by their numbers; out come the rows. `rules/specs/merge_rules/Refs` defines them.

pub mod laws;
pub mod locals;
pub mod type_specs;
