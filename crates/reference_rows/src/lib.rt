//! The TypeRef rows of the output of a merge (II.22.38), and the tokens of types: in go the types that have such rows, their scopes
//! (`reference_scopes`, `reference_assemblies`) and the kept types; out come the rows, and the token by which rows and code name
//! each type. `rules/specs/merge_rules/Refs` defines them.
#![tactic(auto)]

pub mod key_tokens;
pub mod laws;
pub mod number_tokens;
pub mod own_members;
pub mod reference_assemblies;
pub mod reference_scopes;
pub mod rows;
pub mod tokens;
