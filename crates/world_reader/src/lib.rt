//! The record of any assembly: the bytes of a file go in, and its record comes out, or the refusal of the first demand that
//! the file doesn't meet. The record is defined by `rules/specs/record_format`.
#![tactic(auto)]

pub mod cell_reader;
mod descriptor;
mod field_data;
mod layouts;
mod record;
pub mod row_reader;
mod tables;
pub mod user_strings;

pub use il_base::cli_format::TablesError as RecordError;
pub use record::{read_record, row_place};
