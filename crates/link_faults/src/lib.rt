//! The first demand of linking several assemblies that fails. The records of all assemblies and the links of their type tokens go
//! in, and the first fault comes out, as `rules/specs/link_rules/Faults` defines it.
#![tactic(auto)]

mod bases;
mod codes;
mod cycles;
mod duplicates;
mod first;
mod found;
mod graph;
mod held;
mod interface_rows;
mod levels;
mod member_keys;
mod names;
mod nesting;
mod owners;
mod ranks;
mod repeats;
mod scope;
mod signatures;
mod targets;
mod type_keys;
mod value_types;

pub use cycles::cyclic_types;
pub use duplicates::duplicate_member;
pub use first::link_fault;
pub use names::duplicate_assembly;
pub use nesting::cyclic_nesting;
