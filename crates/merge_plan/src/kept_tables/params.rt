//! The parameters of kept methods (II.22.33).

ghost use Rattle.std.specs.Prelude.{◌≡◌, ◌++◌, map, IfOk, OnOk};
ghost use Rattle.std.specs.List.{flat_map};
ghost use Rattle.rules.specs.link_rules.Types.{at_row};
ghost use Rattle.rules.specs.type_rules.Rows.{run_places};
ghost use Rattle.rules.specs.merge_rules.Rows.{params_of};

use crate::push_run;
use il_base::NoMemory;
use il_base::world_model::{AsmRec, MethodDefRow};
use rules::link_rules::RowAt;
use std::alloc::Global;
use type_tables::member_search::linked::assembly_at;

/// Adds the parameters of a method.
fn push_of(
    rows: &mut Vec<RowAt>,
    asm: u32,
    rec: &AsmRec,
    method: &MethodDefRow,
) -> Result<(), NoMemory>
    ensures { OnOk result (rows.new.items ≡ rows.old.items ++ map (at_row asm) (run_places method.now.param_list_first method.now.param_list_end rec.now.param)) }
{
    let start = method.param_list_first.saturating_sub(1);
    let wanted = method
        .param_list_end
        .saturating_sub(method.param_list_first);
    let there = rec.param.len().saturating_sub(start as usize);
    push_run(rows, asm, start, (wanted as usize).min(there))
}

/// Adds the parameters of a method.
fn push_params(rows: &mut Vec<RowAt>, recs: &[AsmRec], at: RowAt) -> Result<(), NoMemory>
    ensures { OnOk result (rows.new.items ≡ rows.old.items ++ params_of recs.now at) }
{
    let Some(rec) = assembly_at(recs, at.asm) else {
        return Ok(());
    };
    match rec.method_def.get(at.row as usize) {
        None => Ok(()),
        Some(method) => push_of(rows, at.asm, rec, method),
    }
}

/// The parameters of methods.
pub(crate) fn params_of(
    alloc: Global,
    recs: &[AsmRec],
    methods: &[RowAt],
) -> Result<Vec<RowAt>, NoMemory>
    ensures { IfOk result (λ rows. rows.items ≡ flat_map (params_of recs.now) methods.now) }
{
    let mut rows = Vec::new(alloc);
    for at in methods {
        push_params(&mut rows, recs, *at)?;
    }
    Ok(rows)
}
