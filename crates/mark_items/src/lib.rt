//! The facts that follow from one fact: the rules on rows, attributes, dependencies, descriptors, shown types and the flow of values
//! together. In go a world with its tables and a fact; out come facts, as `one` of `rules/specs/mark_rules/Marking` lists them.
#![tactic(auto)]

pub mod items;
pub mod mark_calls;
pub mod mark_named;
pub mod mark_needs;
pub mod mark_steps;
pub mod named_rules;
pub mod one;
