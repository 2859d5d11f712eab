//! The tables and heaps of an assembly's metadata (ECMA-335 II.22, II.24). The bytes of the metadata go in; tables come
//! out that give each cell and each heap item. The result is what the demands of `il_base/specs/cli_format/Metadata` say, in their
//! order: tables where all hold, and else the refusal of the first that fails.
#![tactic(auto)]

mod counts;
mod directory;
mod heaps;
mod layout;
mod order;
mod refuse;
mod streams;
mod tables;
mod texts;
mod walk;

pub use il_base::cli_format::TablesError;
pub use layout::{column_at, target};
pub use tables::Tables;
