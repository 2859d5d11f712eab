//! What the kept types and attributes of a merge refer to, thing by thing, and lists of it in the order in which it is met. In go
//! keys of types, members and instances (`key_codes`); `rules/specs/merge_rules/Order` says what they are.

mod met;
mod mets;

pub use met::Met;
pub use mets::Mets;
