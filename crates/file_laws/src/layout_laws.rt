//! Laws: the file that a record is laid out in has that record. `record_layout` says how it is laid out, `record_format` what
//! record a file has.

pub mod laws;
