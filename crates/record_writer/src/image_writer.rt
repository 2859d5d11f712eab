//! The image around code and metadata (II.25): headers, the sections `.text` and `.reloc`, the imports and the jump.
//! `rules/specs/file_layout/Image` defines these bytes.

mod optional;
mod rvas;
mod sections;

pub use rvas::{CODE_RVA, image_length};
pub use sections::{Parts, image};
