//! The InterfaceImpl, GenericParam and GenericParamConstraint rows of the output: in go the assemblies of a world, the new
//! tokens of each and the kept rows in their new order, out come the rows with their new owners. `rules/specs/merge_rules/Restricted`
//! defines them.

pub mod constraints;
mod found;
pub mod generic_params;
pub mod interfaces;
pub mod laws;
