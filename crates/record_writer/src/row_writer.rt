//! The rows of a record as cells: a record goes in, and its tables come out, with the addresses of bodies and field bytes (II.22).
//! `rules/specs/record_layout/Tables` defines these cells.

mod assemblies;
mod cells;
pub mod coded;
mod extras;
mod members;
mod placed;
mod row;
mod signatures;
mod tables;
mod types;

pub use tables::tables_of;
