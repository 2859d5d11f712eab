//! Records written as files: a record goes in, and the bytes of the file that it is laid out in come out, after what is in a
//! vector. `rules/specs/record_layout/Laid` defines these bytes.
#![tactic(auto)]

mod bodies;
pub mod byte_writer;
mod error;
mod field_data;
pub mod image_writer;
pub mod metadata_writer;
pub mod row_writer;
mod rows;
mod writing;

pub use error::WriteError;
pub use writing::write;
