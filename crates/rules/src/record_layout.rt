//! The bytes of the file that any record is laid out in, as definitions in `specs/record_layout/`: a record goes in, and its file
//! comes out (II.22 to II.25). `file_layout` says how cells, heaps, tables and images are laid out; here a record becomes cells.

mod value;

pub use value::Value;
