//! What a trimmer has to know of the values in a body, as definitions in `specs/flow_rules/`: how control goes from each instruction to
//! others, how deep the evaluation stack is, and which `Type` values and names reach which slot. Nothing goes in or comes out.

mod called;
pub mod clause_kind;
mod exit;
mod moves;
mod placed;
mod source;

pub use called::Called;
pub use exit::{Exit, Step, Way};
pub use moves::{Move, Turning};
pub use placed::Placed;
pub use source::Source;
