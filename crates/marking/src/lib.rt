//! The items that a program needs (the marked set). In go a world with its tables, the rules by name, and an entry method by its
//! row; out comes the marked set, as `rules/specs/mark_rules/Marking` defines it.
#![tactic(auto)]

pub mod mark_known;
mod marked;
pub mod marking_rules;
mod set;
mod starts;

pub use marked::{Marked, mark};
