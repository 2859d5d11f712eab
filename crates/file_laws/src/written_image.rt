//! Laws: an image that is laid out reads back as what it was made of, and so does metadata. `file_layout` says how they
//! are laid out, `cli_format` how they are read.

pub mod laws;
