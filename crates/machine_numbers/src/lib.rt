//! Instructions on numbers, branches and slots (III.3): `cil_compare`, `cil_branches`, `cil_arithmetic`, `cil_conversions`,
//! `cil_pointers`, `cil_operands`, `cil_slots`; `cil_numbers` joins those on numbers.
#![tactic(auto)]

pub mod cil_arithmetic;
pub mod cil_branches;
pub mod cil_compare;
pub mod cil_conversions;
pub mod cil_numbers;
pub mod cil_operands;
pub mod cil_pointers;
pub mod cil_slots;
