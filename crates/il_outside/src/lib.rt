//! The outside of the program: a folder of named files, a source of bytes and a sink for bytes, as traits whose
//! clauses tell what a call changes and when it fails; objects in memory that tell all that they hold; and adapters over
//! the disk and the standard streams, which tell nothing of what they hold.
#![tactic(auto)]

mod disk;
mod folder;
mod mem_folder;
mod mem_streams;
mod sink;
mod source;
mod std_streams;
#[cfg(test)]
mod tests;

pub use disk::DiskFolder;
pub use folder::{Folder, FolderError};
pub use mem_folder::{FailAt, MemFolder, NamedFile};
pub use mem_streams::{MemSink, MemSource};
pub use sink::{Sink, SinkError, write_all};
pub use source::{Failed, Source};
pub use std_streams::{StdSink, StdSource};
