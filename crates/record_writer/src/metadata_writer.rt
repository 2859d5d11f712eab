//! The metadata of tables and user texts (II.24): cells that name items go in, and the metadata root with its five streams
//! comes out, each item once in its heap. `rules/specs/file_layout/Metadata` defines these bytes.

pub mod heaps;
pub mod metadata;
mod numbers;
pub mod pool;
mod pools;
mod rows;
mod streams;
pub mod tables;
mod widths;

pub use heaps::users;
pub use streams::metadata_of;
