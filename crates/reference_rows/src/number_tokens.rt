//! The tokens of types in the output of a merge by the numbers of types: in go the tokens of types (`reference_rows`), out come maps
//! from numbers to tokens, by which signatures over the types of the world become those of the output (`moved_parts`).
//! `rules/specs/merge_rules/Refs` defines them (`number_token`).

pub mod laws;
mod maps;

pub use maps::number_tokens;
