//! A law: what a merge leaves of records is a record. Nothing goes in or comes out.

pub mod laws;
