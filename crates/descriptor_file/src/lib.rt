//! What a descriptor file keeps: from the bytes of an XML file to its roots, or to the first byte of the first token that
//! isn't allowed there, as `specs/Reading` defines it.
#![tactic(auto)]

mod error;
mod lexer;
mod read;
mod root;
mod rules;
mod state;
mod token;
mod values;

pub use error::DescriptorError;
pub use read::read_descriptor;
pub use root::{Root, RootMember, member, preserve};
