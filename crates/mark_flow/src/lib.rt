//! What the flow of values makes necessary, and why the values of a body have no flow. In go the world that a link gave with its
//! tables (`tables`) and a marked item, or a method's row; out come facts of marking as `rules/specs/mark_rules/FlowMarks` lists
//! them, or the fault of `rules/specs/mark_rules/FlowFlaws`.
#![tactic(auto)]

mod asked;
mod bodies;
mod faults;
mod found;
mod items;
mod marks;
mod named;
mod owners;
pub mod tables;

pub use faults::fault_at;
pub use items::item_sites;
pub use marks::add_flow_marks;
