//! The parts of items: the types and members that a signature, a body, a base, a constraint or an interface row names. In go an
//! assembly with its tables (`mark_tables`) and a row; out come the parts that `mark_rules` lists.
#![tactic(auto)]

pub mod bodies;
pub mod constraints;
pub mod forms;
pub mod items;
pub mod mark_core_refs;
pub mod mark_facts;
pub mod mark_rows;
pub mod mark_sizes;
pub mod mark_tables;
pub mod methods;
pub mod sigs;
pub mod tokens;
