//! The first bad item of a program. In go a world with its tables, its marked set and its entry; out comes the least flaw of what
//! is marked, by assembly, token, offset and kind, as `rules/specs/mark_rules/BadItems` has it.
#![tactic(auto)]

pub mod attribute_flaws;
mod entries;
mod first;
mod impls;
mod items;
mod least;
pub mod mark_flaws;
mod not_yet;
mod program;

pub use first::first_bad;
pub use not_yet::first_not_yet;
pub use program::Program;
