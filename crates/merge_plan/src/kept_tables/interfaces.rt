//! The InterfaceImpl rows that are kept, by their classes (II.22.23).

ghost use Rattle.std.specs.Prelude.{◌≡◌, [], ◌++◌, map, IfOk, OnOk, if◌then◌else◌};
ghost use Rattle.rules.specs.link_rules.Types.{at_row};
ghost use Rattle.merge_plan.specs.Kept.{kept_by};
ghost use Rattle.rules.specs.mark_rules.Places.{impl_item};
ghost use Rattle.merge_plan.specs.kept_tables.Order.{sorted_of};
ghost use Rattle.merge_plan.specs.kept_tables.Tables.{impl_by, impls_by, impls_of};

use crate::kept_tables::order::{SortedRow, in_order};
use crate::kept_tables::places::token_in;
use crate::{KeptItems, Kind, Numbers, inputs, is_kept};
use il_base::world_model::{AsmRec, InterfaceImplRow};
use il_base::{NoMemory, table};
use rules::link_rules::RowAt;
use std::alloc::Global;
use type_tables::member_search::counted::row_of;

/// Adds a row, where it is kept.
fn push_impl(
    recs: &[AsmRec],
    kept: &KeptItems,
    types: &Numbers,
    at: RowAt,
    row: &InterfaceImplRow,
    rows: &mut Vec<SortedRow>,
) -> Result<(), NoMemory>
    ensures { OnOk result (map sorted_of rows.new.items ≡ map sorted_of rows.old.items ++ impl_by recs.now (kept_by kept.now) types.now at.asm at.row row.now) }
{
    let stays = is_kept(recs, Kind::Interfaces, kept, at)?;
    if !stays {
        return Ok(());
    }
    if let Some(owner) = token_in(table::TYPE_DEF, types, at.asm, row.class) {
        let key = u64::from(owner);
        rows.push(SortedRow { at, owner, key })?;
    }
    Ok(())
}

/// Adds the rows of an assembly that are kept.
fn push_impls(
    recs: &[AsmRec],
    kept: &KeptItems,
    types: &Numbers,
    asm: u32,
    rec: &AsmRec,
    rows: &mut Vec<SortedRow>,
) -> Result<(), NoMemory>
    ensures { OnOk result (map sorted_of rows.new.items ≡ map sorted_of rows.old.items ++ impls_of recs.now (kept_by kept.now) types.now asm rec.now) }
{
    for (k, row) in rec.interface_impl.as_slice().iter().enumerate() {
        let at = RowAt {
            asm,
            row: row_of(k)?,
        };
        push_impl(recs, kept, types, at, row, rows)?;
    }
    Ok(())
}

/// The rows that are kept, by their classes. `types` has the kept types.
pub(crate) fn kept_interfaces(
    alloc: Global,
    recs: &[AsmRec],
    kept: &KeptItems,
    types: &Numbers,
) -> Result<Vec<SortedRow>, NoMemory>
    ensures { IfOk result (λ rows. map sorted_of rows.items ≡ impls_by recs.now (kept_by kept.now) types.now) }
{
    let mut rows = Vec::new(alloc);
    for (a, rec) in inputs(recs).iter().enumerate() {
        let asm = row_of(a)?;
        push_impls(recs, kept, types, asm, rec, &mut rows)?;
    }
    let sorted = in_order(rows)?;
    Ok(sorted)
}
