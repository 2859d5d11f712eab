//! The program's input: bytes of UTF-8 as UTF-16 units. Each byte outside a well-formed sequence gives U+FFFD, as
//! `rules/specs/step_rules/Input` has it.
#![tactic(auto)]

mod character;
mod characters;
mod units;

pub use units::decoded;
