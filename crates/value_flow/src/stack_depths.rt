//! How deep the evaluation stack is at each instruction of a body (III.1.7.4). The ways out of each instruction go in; out come the
//! depths, or that there are none, as `rules/specs/flow_rules/Depths` defines it.

mod search;

pub use search::depths;
