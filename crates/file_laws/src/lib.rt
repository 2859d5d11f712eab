//! Laws on files: what the record of any file keeps (`record_laws`), and that the file that a record is laid out in has that record
//! (`written_image`, `written_tables`, `layout_laws`; II.22, II.24, II.25). Each public function has a law as its contract.
#![tactic(auto)]

pub mod layout_laws;
pub mod record_laws;
pub mod written_image;
pub mod written_tables;
