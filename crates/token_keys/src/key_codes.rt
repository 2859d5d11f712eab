//! What signatures are known by, as lists of numbers: two are the same, as `rules/specs/merge_rules/Keys` says it, exactly where their
//! lists are. So references are told apart by hash look-ups of lists.

pub mod exprs;
pub mod keys;
pub mod laws;
pub mod numbers;
pub mod sigs;
