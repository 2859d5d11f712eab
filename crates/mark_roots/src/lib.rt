//! The facts that descriptors give, and all facts that hold before any rule is used. In go a world with its tables (`mark_tables`,
//! `slashed_names`, `descriptor_types`) and the elements of descriptors (`descriptor_file`); out come facts, as
//! `rules/specs/mark_rules/Roots` lists them.
#![tactic(auto)]

mod fields;
pub mod lookup;
mod mapped;
mod members;
mod methods;
pub mod roots;
pub mod waiting;
