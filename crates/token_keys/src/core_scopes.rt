//! The assemblies through which the inputs of a merge name types of the core library: in go the assemblies of a world and their
//! index, out come the AssemblyRef rows that the output has for these types. `rules/specs/merge_rules/Refs` defines them (`scope_of`).

pub mod assemblies;
mod core_refs;
pub mod scopes;
