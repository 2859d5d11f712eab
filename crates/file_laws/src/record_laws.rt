//! Laws on the records of files: the record that a file has keeps the rules of II.22. The public functions have no body; what
//! they ensure is the law.

pub mod laws;
