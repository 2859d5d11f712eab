//! The tokens of an assembly as the output of a merge has them: in go an assembly with what its tokens have keys by (`token_keys`), the
//! tokens of the output by keys (`key_tokens`) and by the numbers of types (`number_tokens`); out come maps from tokens to tokens, by
//! which signatures, bodies and rows are moved (`moved_parts`). `rules/specs/merge_rules/Moved` defines them (`moved_type` and the like).

pub mod laws;
mod maps;
mod moving;

pub use maps::assembly_tokens;
pub use moving::Moving;
