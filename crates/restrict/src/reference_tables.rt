//! The tables of references in the output of a merge: in go a world with its keys and the tokens of the output (`member_rows`); out come
//! the AssemblyRef, TypeRef, TypeSpec, MemberRef, MethodSpec and StandAloneSig rows. `rules/specs/merge_rules/Refs` defines them.

mod tables;

pub use tables::{ReferenceTables, reference_tables};
