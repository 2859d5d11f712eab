//! The scopes of types that have TypeRef rows in the output of a merge (II.22.38): in go the assemblies of a world and a type, out
//! come the type around it, the types that have a row before it, and the assembly in which it is. `rules/specs/merge_rules/Refs` defines
//! them.

mod around;
mod chains;
mod ids;
pub mod scopes;
