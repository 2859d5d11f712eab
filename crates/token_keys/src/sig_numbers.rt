//! The numbers in signatures over the types of the world: in go signatures (II.23.2), out come the numbers that stand in them in
//! place of tokens, in the order of the blob. `rules/specs/merge_rules/Refs` defines them (`numbers_in`).

pub mod numbers;
