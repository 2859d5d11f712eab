//! Signatures (II.23.2) both ways: a blob's bytes go in and the value that they spell comes out, or the first byte
//! that no value allows; a value goes in and its shortest spelling is appended to a vector's bytes.
//! What is read and written is defined by `il_base::blob_grammar`.
#![tactic(auto)]

mod error;
mod methods;
mod numbers;
mod put;
mod read;
mod types;
mod write;

pub use error::{FLOAT, MALFORMED, SigError};
pub use read::{read_field, read_instance, read_locals, read_method, read_property, read_type};
pub use write::{
    write_field, write_instance, write_locals, write_method, write_property, write_type,
};
