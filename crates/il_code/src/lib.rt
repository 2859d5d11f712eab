//! Method bodies: bytes go in, and a `Body` or the first fault comes out; a `Body` goes in, and its bytes come out.
//! The results are those of the grammar of bodies, `il_base/specs/body_grammar/Bodies`.
#![tactic(auto)]

mod around;
mod blocks;
mod error;
mod header;
mod instructions;
mod nesting;
mod opcodes;
mod reading;
mod rules;
mod section;
mod sizes;
mod tops;
mod writing;

pub use error::{BodyError, ReadBody};
pub use header::read_header;
pub use opcodes::kind;
pub use reading::read_body;
pub use rules::offender;
pub use sizes::instr_size;
pub use writing::write_body;
