//! The InterfaceImpl rows of the output (II.22.23).

ghost use Rattle.std.specs.Prelude.{◌≡◌, ◌++◌, IfOk, OnOk};
ghost use Rattle.merged_tables.specs.merged_sorted.Owned.{interface_of, interfaces_by};

use crate::merged_sorted::found::tokens_at;
use il_base::world_model::{AsmRec, InterfaceImplRow};
use il_base::{NoMemory, Seq};
use merge_plan::kept_tables::order::SortedRow;
use merge_plan::moved_parts::NewTokens;
use std::alloc::Global;
use type_tables::member_search::linked::assembly_at;

/// Puts the row of the output at the end that is made of a row.
fn push_interface(
    recs: &[AsmRec],
    tokens: &[NewTokens],
    place: SortedRow,
    rows: &mut Seq<InterfaceImplRow>,
) -> Result<(), NoMemory>
    ensures { OnOk result (rows.new ≡ rows.old ++ interface_of recs.now tokens.now place) }
{
    let Some(rec) = assembly_at(recs, place.at.asm) else {
        return Ok(());
    };
    let Some(new) = tokens_at(tokens, place.at.asm) else {
        return Ok(());
    };
    let Some(row) = rec.interface_impl.get(place.at.row as usize) else {
        return Ok(());
    };
    rows.push(InterfaceImplRow {
        class: place.owner,
        interface: new.types.get(row.interface),
    })?;
    Ok(())
}

/// The rows of the output that are made of some rows. `tokens` has the new tokens of each assembly, `places` the rows with the
/// new tokens of their classes.
pub fn interface_impls(
    alloc: Global,
    recs: &[AsmRec],
    tokens: &[NewTokens],
    places: &[SortedRow],
) -> Result<Seq<InterfaceImplRow>, NoMemory>
    ensures { IfOk result (λ rows. rows ≡ interfaces_by recs.now tokens.now places.now) }
{
    let mut rows = Seq::new(alloc);
    for place in places {
        push_interface(recs, tokens, *place, &mut rows)?;
    }
    Ok(rows)
}
