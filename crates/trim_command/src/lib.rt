//! `trim` over the outside: in go the names of files and of descriptors, the names under which to write, a folder and two sinks;
//! out comes the status of the trim of what stands under the names, which is written with its status line (`specs/Answer`).
#![tactic(auto)]

mod reading;
mod reporting;
mod trimming;
mod writing;

pub use trimming::trim_files;
