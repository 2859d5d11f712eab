//! The tables of kept rows in the output of a merge: in go the assemblies of a world, the plan, the kept items with their tables
//! (`kept_tables`) and the new tokens of each assembly (`output_tokens`); out come the rows of kept items and those that go with them,
//! with the addresses of bodies and of the bytes of fields. `rules/specs/merge_rules/Restricted` defines them.
#![tactic(auto)]

mod belonging;
mod items;
mod maps;
pub mod merged_field_rvas;
pub mod merged_impls;
pub mod merged_maps;
pub mod merged_members;
pub mod merged_rows;
pub mod merged_sorted;
pub mod merged_texts;
pub mod merged_types;
mod owned;
mod parts;
mod placed;
mod tables;

pub use belonging::BelongingRows;
pub use items::ItemRows;
pub use maps::MapRows;
pub use owned::OwnedRows;
pub use parts::OutputParts;
pub use placed::PlacedRows;
pub use tables::{MergedTables, merged_tables};
