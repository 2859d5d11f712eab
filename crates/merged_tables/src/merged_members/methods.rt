//! The MethodDef rows of the output (II.22.26), before they have addresses.

ghost use Rattle.std.specs.Prelude.{◌≡◌, ◌++◌, IfOk, OnOk};
ghost use Rattle.merged_tables.specs.merged_members.Members.{method_of, methods_by};

use crate::merged_members::found::tokens_at;
use il_base::world_model::{AsmRec, MethodDefRow};
use il_base::{NoMemory, Seq};
use merge_plan::Numbers;
use merge_plan::moved_parts::{NewTokens, moved_method};
use rules::link_rules::RowAt;
use std::alloc::Global;
use type_tables::member_search::linked::assembly_at;

/// Puts the row of the output at the end that is made of a row. `params` has the kept parameters.
fn push_method(
    alloc: Global,
    recs: &[AsmRec],
    tokens: &[NewTokens],
    params: &Numbers,
    at: RowAt,
    rows: &mut Seq<MethodDefRow>,
) -> Result<(), NoMemory>
    ensures { OnOk result (rows.new ≡ rows.old ++ method_of recs.now tokens.now params.now at) }
{
    let Some(rec) = assembly_at(recs, at.asm) else {
        return Ok(());
    };
    let Some(new) = tokens_at(tokens, at.asm) else {
        return Ok(());
    };
    let Some(row) = rec.method_def.get(at.row as usize) else {
        return Ok(());
    };
    let first = params.run_at(at.asm, row.param_list_first)?;
    let end = params.run_at(at.asm, row.param_list_end)?;
    let moved = moved_method(alloc, rec, new, first, end, row)?;
    rows.push(moved)?;
    Ok(())
}

/// The rows of the output that are made of some rows. `tokens` has the new tokens of each assembly, `params` the kept
/// parameters.
pub fn methods(
    alloc: Global,
    recs: &[AsmRec],
    tokens: &[NewTokens],
    params: &Numbers,
    places: &[RowAt],
) -> Result<Seq<MethodDefRow>, NoMemory>
    ensures { IfOk result (λ rows. rows ≡ methods_by recs.now tokens.now params.now places.now) }
{
    let mut rows = Seq::new(alloc);
    for at in places {
        push_method(alloc, recs, tokens, params, *at, &mut rows)?;
    }
    Ok(rows)
}
