//! Keys that are met, each once, in the order in which they are first met, and their places by hash. The codes of `key_codes`
//! stand for keys; `rules/specs/merge_rules/Refs` says what the lists are.

pub mod codes;
pub mod instances;
pub mod lists;
pub mod members;
pub mod row_tokens;
pub mod sigs;
pub mod types;
