//! The bytes of a file that is written, as definitions in `specs/file_layout/`: a record goes in, and the one file that is laid out for
//! it comes out (II.22 to II.25). Nothing here reads or writes; here is the data that the definitions and a writer share.

mod cell;

pub use cell::Cell;
