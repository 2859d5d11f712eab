//! Signatures, bodies and rows of kept items with the tokens of the output. In go the new tokens of an assembly and a part of its
//! record, out comes the part as the output has it. `specs/moved_parts/Moves` defines the part by the new tokens; a law says that
//! this is the part which `rules/specs/merge_rules` defines.

mod code;
pub mod laws;
mod rows;
mod sigs;
mod tokens;

pub use code::moved_body;
pub use rows::{moved_event, moved_field, moved_method, moved_param, moved_property};
pub use sigs::{moved_method_sig, moved_sig, moved_sigs};
pub use tokens::{NewTokens, TokenMap};
