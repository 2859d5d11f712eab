//! Members of the core library that call what reflection found, or read and set it, and with them all members. In goes a state with
//! the arguments off the stack; out comes what the member gives, as `rules/specs/step_rules/Core` has it.
#![tactic(auto)]

mod arguments;
mod calling;
mod fields;
mod frames;
mod invoking;
mod methods;
mod running;
mod targets;

pub use calling::core_call;
