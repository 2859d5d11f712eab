//! The rules of marking that find items by attributes, by texts, by descriptors and by the flow of values, as a trait. An implementor
//! has a world and the elements of descriptors; out come facts, as `rules/specs/mark_rules` lists them.

mod named_rules;

pub use named_rules::NamedRules;
