//! What tables are made of.

use il_base::world_model::AsmRec;
use mark_parts::mark_tables::marker::Marker;
use merge_plan::KeptItems;
use merge_plan::kept_tables::tables::KeptTables;
use merge_plan::moved_parts::NewTokens;
use merge_plan::outcome::Plan;
use resolver::type_links::TypeIndex;

/// A world, its kept items with their tables, the new names of its types and the new tokens of its assemblies.
#[derive(Clone, Copy)]
pub struct OutputParts<'a> {
    /// All assemblies; the core library is the last.
    pub recs: &'a [AsmRec],
    pub marker: &'a Marker<'a>,
    pub index: &'a TypeIndex<'a>,
    pub kept: &'a KeptItems,
    pub plan: &'a Plan,
    pub tables: &'a KeptTables,
    /// Those of each assembly.
    pub tokens: &'a [NewTokens],
}
