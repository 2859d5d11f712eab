//! What a call does with the method that it found (I.12.4.1): its arguments are taken off the stack, its type is begun, and it
//! runs, in this step or in a frame of its own. In goes a state at the instruction that calls; out comes what the step comes
//! to, as `rules/specs/step_rules/Calls` has it.

mod args;
mod going;
mod invoking;
mod operands;
mod taking;

pub use args::{first_and_rest, with_first};
pub use cil_core::resume;
pub use going::{gives_made, push_result};
pub use invoking::{invoke, runs, runs_found, runs_on};
pub use operands::{Operand, method_operand};
pub use taking::{begun_for, take_prefix, take_values};
