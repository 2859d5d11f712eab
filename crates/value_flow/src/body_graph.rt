//! The graph of a method's body: where control goes from each instruction, and how deep the evaluation stack is there. A world and
//! a method go in; out comes the graph, or that the body has none, as `flow_rules` defines them.

mod blocks;
pub mod counts;
mod exits;
mod graph;
pub mod methods;
pub mod operands;
mod places;
pub mod signatures;
mod steps;

pub use graph::{Graph, GraphError};
pub use places::Places;
