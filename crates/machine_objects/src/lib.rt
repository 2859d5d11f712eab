//! Instructions on fields, types and arrays (III.4): `cil_fields`, `cil_types`, `cil_arrays`.
#![tactic(auto)]

pub mod cil_arrays;
pub mod cil_fields;
pub mod cil_types;
