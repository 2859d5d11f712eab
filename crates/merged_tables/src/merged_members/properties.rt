//! The Property rows of the output (II.22.34).

ghost use Rattle.std.specs.Prelude.{◌≡◌, ◌++◌, IfOk, OnOk};
ghost use Rattle.merged_tables.specs.merged_members.Members.{property_of, properties_by};

use crate::merged_members::found::tokens_at;
use il_base::world_model::{AsmRec, PropertyRow};
use il_base::{NoMemory, Seq};
use merge_plan::moved_parts::{NewTokens, moved_property};
use rules::link_rules::RowAt;
use std::alloc::Global;
use type_tables::member_search::linked::assembly_at;

/// Puts the row of the output at the end that is made of a row.
fn push_property(
    alloc: Global,
    recs: &[AsmRec],
    tokens: &[NewTokens],
    at: RowAt,
    rows: &mut Seq<PropertyRow>,
) -> Result<(), NoMemory>
    ensures { OnOk result (rows.new ≡ rows.old ++ property_of recs.now tokens.now at) }
{
    let Some(rec) = assembly_at(recs, at.asm) else {
        return Ok(());
    };
    let Some(new) = tokens_at(tokens, at.asm) else {
        return Ok(());
    };
    let Some(row) = rec.property.get(at.row as usize) else {
        return Ok(());
    };
    let moved = moved_property(alloc, new, row)?;
    rows.push(moved)?;
    Ok(())
}

/// The rows of the output that are made of some rows. `tokens` has the new tokens of each assembly.
pub fn properties(
    alloc: Global,
    recs: &[AsmRec],
    tokens: &[NewTokens],
    places: &[RowAt],
) -> Result<Seq<PropertyRow>, NoMemory>
    ensures { IfOk result (λ rows. rows ≡ properties_by recs.now tokens.now places.now) }
{
    let mut rows = Seq::new(alloc);
    for at in places {
        push_property(alloc, recs, tokens, *at, &mut rows)?;
    }
    Ok(rows)
}
