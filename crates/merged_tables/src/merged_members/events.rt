//! The Event rows of the output (II.22.13).

ghost use Rattle.std.specs.Prelude.{◌≡◌, ◌++◌, IfOk, OnOk};
ghost use Rattle.merged_tables.specs.merged_members.Members.{event_of, events_by};

use crate::merged_members::found::tokens_at;
use il_base::world_model::{AsmRec, EventRow};
use il_base::{NoMemory, Seq};
use merge_plan::moved_parts::{NewTokens, moved_event};
use rules::link_rules::RowAt;
use std::alloc::Global;
use type_tables::member_search::linked::assembly_at;

/// Puts the row of the output at the end that is made of a row.
fn push_event(
    alloc: Global,
    recs: &[AsmRec],
    tokens: &[NewTokens],
    at: RowAt,
    rows: &mut Seq<EventRow>,
) -> Result<(), NoMemory>
    ensures { OnOk result (rows.new ≡ rows.old ++ event_of recs.now tokens.now at) }
{
    let Some(rec) = assembly_at(recs, at.asm) else {
        return Ok(());
    };
    let Some(new) = tokens_at(tokens, at.asm) else {
        return Ok(());
    };
    let Some(row) = rec.event.get(at.row as usize) else {
        return Ok(());
    };
    let moved = moved_event(alloc, new, row)?;
    rows.push(moved)?;
    Ok(())
}

/// The rows of the output that are made of some rows. `tokens` has the new tokens of each assembly.
pub fn events(
    alloc: Global,
    recs: &[AsmRec],
    tokens: &[NewTokens],
    places: &[RowAt],
) -> Result<Seq<EventRow>, NoMemory>
    ensures { IfOk result (λ rows. rows ≡ events_by recs.now tokens.now places.now) }
{
    let mut rows = Seq::new(alloc);
    for at in places {
        push_event(alloc, recs, tokens, *at, &mut rows)?;
    }
    Ok(rows)
}
