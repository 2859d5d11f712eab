//! What signatures, tokens and method bodies of an assembly refer to, as a merge meets it: in go an assembly with the numbers of its
//! tokens (`token_keys`) and what is met so far (`met_forms`), out comes the same with more at its end. `rules/specs/merge_rules/Order`
//! defines what is met.

pub mod bodies;
pub mod sigs;
pub mod tokens;
