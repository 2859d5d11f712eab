//! The facts that the dependencies of methods and fields give. In go a world with its tables (`mark_tables`, `nested_types`,
//! `type_names`), a method or a field and its dependencies (`dependency_forms`); out come facts, as
//! `rules/specs/mark_rules/Dependencies` lists them.
#![tactic(auto)]

mod called;
pub mod dependencies;
pub mod item_dependencies;
mod kinds;
pub mod lookup;
pub mod mark_attributes;
mod methods;
mod names;
mod sought;
