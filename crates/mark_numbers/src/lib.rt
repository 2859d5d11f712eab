//! Facts as numbers below a bound, so that sets of facts are bits. In goes a world; `specs/Numbers` defines the number of each
//! fact. The items of a world come first, then the types that are instantiated, those that are shown, and the items that reflection
//! may reach.
#![tactic(auto)]

pub mod laws;
pub mod mark_laws;
pub mod numbers;
pub mod starts;
