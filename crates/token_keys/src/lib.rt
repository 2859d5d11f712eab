//! The keys of the types and members that tokens of an assembly name; by these keys references are told apart. In go a world with
//! its tables (`mark_tables`), one of its assemblies and the numbers of the types that its tokens name (`type_numbers`); out come
//! keys of types, methods, fields and methods with arguments. `rules/specs/merge_rules/Keys` defines them.
#![tactic(auto)]

pub mod absent_types;
pub mod copied_attributes;
pub mod core_scopes;
pub mod key_codes;
pub mod key_copies;
pub mod key_types;
pub mod keys;
pub mod made;
pub mod members;
pub mod met_forms;
pub mod met_keys;
pub mod sig_numbers;
pub mod signature_rows;
pub mod sigs;
pub mod type_numbers;
pub mod types;
pub mod world_keys;
