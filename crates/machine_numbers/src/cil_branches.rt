//! Branches: `br`, those on one operand and on two, `switch` (III.3.5 to III.3.18, III.3.66). In goes a state at the
//! instruction; out comes what the step comes to, as `rules/specs/step_rules/Branches` has it.

mod branches;
mod operands;
mod tests_of;

pub use branches::{branch, branch_if, switch};
