//! The files under some names: in go the names and a folder, out come the bytes under each, in the order of the names
//! (`specs/Files`).
#![tactic(auto)]

mod files;

pub use files::read_files;
