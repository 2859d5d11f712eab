//! Instructions on arguments, locals and constants, `nop`, `dup` and `pop` (III.3.33 to III.3.63). In goes a state at the
//! instruction; out comes what the step comes to, as `rules/specs/step_rules/Slots` has it.

mod constants;
mod operands;
mod slot_types;
mod slots;

pub use constants::{duplicate, load_int32, load_int64, load_null, nop, pop};
pub use slots::{address_arg, address_local, load_arg, load_local, store_arg, store_local};
