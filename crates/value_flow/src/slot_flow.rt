//! Which sources reach which slots of a body. What the instructions do with sources goes in (`Flowing`); out comes the set of
//! all that is carried, as `specs/slot_flow/Carrying` defines it by walks of one source.

mod facts;
mod moves;
mod pairs;
mod walks;

pub use moves::Flowing;
pub use walks::Reached;
