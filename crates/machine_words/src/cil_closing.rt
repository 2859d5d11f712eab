//! Types, methods and fields of operands with the generic arguments of the running method put in (II.9.8). In go open types
//! and uses; out come closed ones, or None for what has then no meaning. Each is that of `rules/specs/step_rules/Closing`.

mod accessed;
mod callee;
mod closed_types;
mod closed_uses;
mod plain;
mod running;
mod settled;
mod standing;

pub use accessed::{Accessed, accessed_use};
pub use callee::{Callee, ClosedSignature, callee_of};
pub use closed_types::{closed_cell, closed_return, closed_slot};
pub use closed_uses::closed_use;
pub use plain::{args_of, is_void, without_modifiers};
pub use running::body_of;
pub use standing::are_whole;
