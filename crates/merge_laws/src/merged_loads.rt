//! Laws: the file that is written of what a merge leaves of files' records has that record. Nothing goes in or comes out.

pub mod laws;
