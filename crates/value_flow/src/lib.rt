//! Which sources of `Type` values and names reach which slot of a method's body. The types of a world, a method and its graph go in;
//! out comes `Flow`, as `rules::flow_rules` defines it.
#![tactic(auto)]

pub mod body_graph;
mod doing;
mod flow;
mod handles;
mod members;
mod moves;
mod numbers;
mod parts;
mod same;
pub mod slot_flow;
mod sources;
pub mod stack_depths;
mod texts;

pub use flow::{Flow, FlowError, MOST_WORK, work_in};
pub use texts::type_of_text;
