//! All tables of kept rows.

ghost use Rattle.std.specs.Prelude.{IfOk};
ghost use Rattle.merged_tables.specs.Parts.{AreOutputParts, output_in};
ghost use Rattle.merged_tables.specs.Rows.{AreMergedTables};

use crate::belonging::{BelongingRows, belonging_rows};
use crate::items::{ItemRows, item_rows};
use crate::maps::{MapRows, map_rows};
use crate::owned::{OwnedRows, owned_rows};
use crate::parts::OutputParts;
use crate::placed::{PlacedRows, placed_rows};
use il_base::NoMemory;
use std::alloc::Global;

/// The rows of kept items and those that go with them.
#[derive(Drop)]
pub struct MergedTables {
    pub items: ItemRows,
    pub placed: PlacedRows,
    pub owned: OwnedRows,
    pub belonging: BelongingRows,
    pub maps: MapRows,
}

/// The rows of the output.
pub fn merged_tables(alloc: Global, parts: &OutputParts<'_>) -> Result<MergedTables, NoMemory>
    requires { AreOutputParts parts.now }
    ensures { IfOk result (AreMergedTables parts.now.plan.now.internal (output_in parts.now)) }
{
    let items = item_rows(alloc, parts)?;
    let placed = placed_rows(alloc, parts)?;
    let owned = owned_rows(alloc, parts)?;
    let belonging = belonging_rows(alloc, parts)?;
    let maps = map_rows(alloc, parts)?;
    Ok(MergedTables {
        items,
        placed,
        owned,
        belonging,
        maps,
    })
}
