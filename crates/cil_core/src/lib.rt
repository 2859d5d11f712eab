//! Members of the core library: a call is whole in its step, but for one that calls a method of the program. In goes a state
//! with the arguments off the stack; out comes what the member gives, as `rules/specs/step_rules/Core` has it.
#![tactic(auto)]

mod again;
mod called;
mod calling;
pub mod cil_console_members;
pub mod cil_exceptions;
pub mod cil_members;
pub mod cil_object_members;
pub mod cil_text_members;
pub mod cil_type_members;
mod found;
mod making;
mod members;
mod resuming;
mod virtual_members;

pub use again::started_with;
pub use called::{called_for, gives_boxed};
pub use calling::own_member;
pub use found::found_args;
pub use making::{create_of, is_open};
pub use resuming::resume;
