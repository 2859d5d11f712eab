//! The record that a merge leaves: in go a world, its kept items and the plan of their names (`merge_plan`); out comes the record of
//! the one assembly that is left. `rules/specs/merge_rules/Restricted` defines it.
#![tactic(auto)]

pub mod assembly_tokens;
pub mod constructor_keys;
pub mod member_rows;
pub mod merged_attributes;
pub mod met_order;
pub mod met_parts;
pub mod output_references;
pub mod output_tokens;
mod record;
pub mod reference_tables;
pub mod reference_types;
mod referring;
mod restricting;
mod rows;

pub use restricting::restrict;
