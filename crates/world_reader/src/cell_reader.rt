//! The cells of a file that meets the demands on an assembly (II.22 to II.25). `Assembly` opens it; then it gives the number in a
//! cell, the item that this names (a text, a blob, a GUID, a token, a run of rows), and the bytes at an RVA.
//! `rules/specs/record_format/Cells` defines each.

mod assembly;
mod cells;

pub use assembly::Assembly;
