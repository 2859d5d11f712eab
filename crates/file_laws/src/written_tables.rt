//! Laws: tables and heaps that are laid out read back as their rows and items. `file_layout` says how they are laid out,
//! `cli_format` how they are read.

pub mod laws;
