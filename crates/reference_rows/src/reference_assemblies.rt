//! The AssemblyRef rows of the output of a merge (II.22.5): in go the types that have TypeRef rows and their scopes
//! (`reference_scopes`), out come the assemblies of these types, each once, and their tokens. `rules/specs/merge_rules/Refs` defines them.

pub mod assemblies;
