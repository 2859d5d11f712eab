//! The GenericParamConstraint rows of the output (II.22.21).

ghost use Rattle.std.specs.Prelude.{◌≡◌, ◌++◌, IfOk, OnOk};
ghost use Rattle.merged_tables.specs.merged_sorted.Owned.{constraint_of, constraints_by};

use crate::merged_sorted::found::tokens_at;
use il_base::world_model::{AsmRec, GenericParamConstraintRow};
use il_base::{NoMemory, Seq};
use merge_plan::kept_tables::order::SortedRow;
use merge_plan::moved_parts::NewTokens;
use std::alloc::Global;
use type_tables::member_search::linked::assembly_at;

/// Puts the row of the output at the end that is made of a row.
fn push_constraint(
    recs: &[AsmRec],
    tokens: &[NewTokens],
    place: SortedRow,
    rows: &mut Seq<GenericParamConstraintRow>,
) -> Result<(), NoMemory>
    ensures { OnOk result (rows.new ≡ rows.old ++ constraint_of recs.now tokens.now place) }
{
    let Some(rec) = assembly_at(recs, place.at.asm) else {
        return Ok(());
    };
    let Some(new) = tokens_at(tokens, place.at.asm) else {
        return Ok(());
    };
    let Some(row) = rec.generic_param_constraint.get(place.at.row as usize) else {
        return Ok(());
    };
    rows.push(GenericParamConstraintRow {
        owner: place.owner,
        constraint: new.types.get(row.constraint),
    })?;
    Ok(())
}

/// The rows of the output that are made of some rows. `tokens` has the new tokens of each assembly, `places` the rows with the
/// new tokens of their generic parameters.
pub fn constraints(
    alloc: Global,
    recs: &[AsmRec],
    tokens: &[NewTokens],
    places: &[SortedRow],
) -> Result<Seq<GenericParamConstraintRow>, NoMemory>
    ensures { IfOk result (λ rows. rows ≡ constraints_by recs.now tokens.now places.now) }
{
    let mut rows = Seq::new(alloc);
    for place in places {
        push_constraint(recs, tokens, *place, &mut rows)?;
    }
    Ok(rows)
}
