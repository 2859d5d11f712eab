//! The least set of facts that holds some roots and is closed under rules, found with a list of facts that wait.
//! Rules go in, and roots; out comes a set with exactly the facts that follow from the roots, as `closure/specs/Facts` has it.

mod found;
mod rounds;
mod rules;

pub use rounds::least;
pub use rules::Rules;
