//! The types in keys: in go signatures over the types of the world (II.23.2) and keys of types (`key_codes`), out come the types that
//! stand in them, in order. `rules/specs/merge_rules/Refs` defines them (`types_of_sig`, `types_of_key`).

pub mod types;
