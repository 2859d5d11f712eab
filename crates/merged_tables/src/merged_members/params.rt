//! The Param rows of the output (II.22.33).

ghost use Rattle.std.specs.Prelude.{◌≡◌, ◌++◌, IfOk, OnOk};
ghost use Rattle.merged_tables.specs.merged_members.Members.{param_of, params_by};

use il_base::world_model::{AsmRec, ParamRow};
use il_base::{NoMemory, Seq};
use merge_plan::moved_parts::moved_param;
use rules::link_rules::RowAt;
use std::alloc::Global;
use type_tables::member_search::linked::assembly_at;

/// Puts the row of the output at the end that is made of a row.
fn push_param(
    alloc: Global,
    recs: &[AsmRec],
    at: RowAt,
    rows: &mut Seq<ParamRow>,
) -> Result<(), NoMemory>
    ensures { OnOk result (rows.new ≡ rows.old ++ param_of recs.now at) }
{
    let Some(rec) = assembly_at(recs, at.asm) else {
        return Ok(());
    };
    let Some(row) = rec.param.get(at.row as usize) else {
        return Ok(());
    };
    let moved = moved_param(alloc, row)?;
    rows.push(moved)?;
    Ok(())
}

/// The rows of the output that are made of some rows.
pub fn params(alloc: Global, recs: &[AsmRec], places: &[RowAt]) -> Result<Seq<ParamRow>, NoMemory>
    ensures { IfOk result (λ rows. rows ≡ params_by recs.now places.now) }
{
    let mut rows = Seq::new(alloc);
    for at in places {
        push_param(alloc, recs, *at, &mut rows)?;
    }
    Ok(rows)
}
