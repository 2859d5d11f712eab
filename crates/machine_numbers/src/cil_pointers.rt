//! Loads and stores at the places of managed pointers, by instructions that took their operands off the evaluation stack. Each
//! is that of `rules/specs/step_rules/Places` in the state with the operands on the stack.

mod apart;
mod drops;
mod reached;

pub use apart::{ended_at, gives, puts_at, value_at};
pub use drops::discard;
pub use reached::Reached;
