//! The GenericParamConstraint rows of kept generic parameters, in the order of these (II.22.21).

ghost use Rattle.std.specs.Prelude.{◌≡◌, ◌++◌, map, IfOk, OnOk};
ghost use Rattle.merge_plan.specs.kept_tables.Order.{sorted_of};
ghost use Rattle.merge_plan.specs.kept_tables.Tables.{constraint_by, constraints_by, constraints_in};

use crate::kept_tables::order::{SortedRow, in_order};
use crate::kept_tables::places::token_in;
use crate::{Numbers, inputs};
use il_base::world_model::{AsmRec, GenericParamConstraintRow};
use il_base::{NoMemory, table};
use rules::link_rules::RowAt;
use std::alloc::Global;
use type_tables::member_search::counted::row_of;

/// Adds a row, where its generic parameter is kept.
fn push_constraint(
    params: &Numbers,
    at: RowAt,
    row: &GenericParamConstraintRow,
    rows: &mut Vec<SortedRow>,
) -> Result<(), NoMemory>
    ensures { OnOk result (map sorted_of rows.new.items ≡ map sorted_of rows.old.items ++ constraint_by params.now at.asm at.row row.now) }
{
    if let Some(owner) = token_in(table::GENERIC_PARAM, params, at.asm, row.owner) {
        let key = u64::from(owner);
        rows.push(SortedRow { at, owner, key })?;
    }
    Ok(())
}

/// Adds the rows of an assembly that are kept.
fn push_constraints(
    params: &Numbers,
    asm: u32,
    rec: &AsmRec,
    rows: &mut Vec<SortedRow>,
) -> Result<(), NoMemory>
    ensures { OnOk result (map sorted_of rows.new.items ≡ map sorted_of rows.old.items ++ constraints_in params.now asm rec.now) }
{
    for (k, row) in rec.generic_param_constraint.as_slice().iter().enumerate() {
        let at = RowAt {
            asm,
            row: row_of(k)?,
        };
        push_constraint(params, at, row, rows)?;
    }
    Ok(())
}

/// The rows of kept generic parameters.
pub(crate) fn kept_constraints(
    alloc: Global,
    recs: &[AsmRec],
    params: &Numbers,
) -> Result<Vec<SortedRow>, NoMemory>
    ensures { IfOk result (λ rows. map sorted_of rows.items ≡ constraints_by params.now recs.now) }
{
    let mut rows = Vec::new(alloc);
    for (a, rec) in inputs(recs).iter().enumerate() {
        let asm = row_of(a)?;
        push_constraints(params, asm, rec, &mut rows)?;
    }
    let sorted = in_order(rows)?;
    Ok(sorted)
}
