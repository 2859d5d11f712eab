//! The GenericParam rows of the output (II.22.20).

ghost use Rattle.std.specs.Prelude.{◌≡◌, ◌++◌, IfOk, OnOk};
ghost use Rattle.merged_tables.specs.merged_sorted.Owned.{generic_param_of, generic_params_by};

use il_base::world_model::{AsmRec, GenericParamRow};
use il_base::{NoMemory, Seq};
use merge_plan::kept_tables::order::SortedRow;
use std::alloc::Global;
use type_tables::member_search::linked::assembly_at;

/// Puts the row of the output at the end that is made of a row.
fn push_generic_param(
    alloc: Global,
    recs: &[AsmRec],
    place: SortedRow,
    rows: &mut Seq<GenericParamRow>,
) -> Result<(), NoMemory>
    ensures { OnOk result (rows.new ≡ rows.old ++ generic_param_of recs.now place) }
{
    let Some(rec) = assembly_at(recs, place.at.asm) else {
        return Ok(());
    };
    let Some(row) = rec.generic_param.get(place.at.row as usize) else {
        return Ok(());
    };
    let name = Seq::from_slice(alloc, row.name.as_slice())?;
    rows.push(GenericParamRow {
        number: row.number,
        flags: row.flags,
        owner: place.owner,
        name,
    })?;
    Ok(())
}

/// The rows of the output that are made of some rows. `places` has the rows with the new tokens of their owners.
pub fn generic_params(
    alloc: Global,
    recs: &[AsmRec],
    places: &[SortedRow],
) -> Result<Seq<GenericParamRow>, NoMemory>
    ensures { IfOk result (λ rows. rows ≡ generic_params_by recs.now places.now) }
{
    let mut rows = Seq::new(alloc);
    for place in places {
        push_generic_param(alloc, recs, *place, &mut rows)?;
    }
    Ok(rows)
}
