//! Operands on the evaluation stack (I.12.3.2.1). They are looked at where they are, and taken off only where the step goes on.
//! In go a state and what an instruction gives; out comes the next state, and how the step ended.

mod operands;
mod outcome;
mod refusal;

pub use operands::{consumes, gives, next_operand, operand};
pub use outcome::{comes_to, refuse};
pub use refusal::Refusal;
