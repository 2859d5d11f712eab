//! The least set of facts that holds some roots and is closed under rules, as `specs/Facts` defines it.
//! Rules go in, and roots; out comes a set with exactly the facts that follow from the roots.
#![tactic(auto)]

mod facts;
pub mod laws;
pub mod queued_closure;
mod rounds;
mod rules;
#[cfg(test)]
mod tests;

pub use rounds::least;
pub use rules::Rules;
