//! Runs of rows that keep one.

ghost use Rattle.std.specs.Prelude.{◌≡◌, IfOk};
ghost use Rattle.std.specs.List.{list_any, range_with_len};
ghost use Rattle.merge_plan.specs.Kept.{kept_by};
ghost use Rattle.il_base.specs.declared.table.TheConstants.{TYPE_DEF};
ghost use Rattle.merge_plan.specs.kept_tables.Places.{token_in};
ghost use Rattle.merged_tables.specs.merged_maps.Maps.{keeps_row, run_length};

use il_base::world_model::{AsmRec, table_of};
use il_base::{NoMemory, table};
use merge_plan::kept_tables::tables::KeptTables;
use merge_plan::{KeptItems, Kind, is_kept};
use rules::link_rules::RowAt;
use type_tables::member_search::counted::sum;

/// What the token of a kept type becomes; None where it goes, or where it is of another table.
pub(crate) fn class(tables: &KeptTables, asm: u32, token: u32) -> Option<u32>
    ensures { result ≡ token_in TYPE_DEF tables.now.items.types asm token }
{
    if table_of(token) != table::TYPE_DEF {
        return None;
    }
    tables.token(asm, token)
}

/// How many rows a run has, from a row to another, both from 1, of a table with `rows` rows.
pub(crate) fn run_length(first: u32, end: u32, rows: usize) -> usize
    ensures { result ≡ run_length first end rows }
{
    let wanted = end.saturating_sub(first) as usize;
    wanted.min(rows.saturating_sub(first.saturating_sub(1) as usize))
}

/// Whether one of `count` rows of an assembly is kept, the first of which is `start`, from 0.
pub(crate) fn keeps_some(
    recs: &[AsmRec],
    kept: &KeptItems,
    kind: Kind,
    asm: u32,
    start: u32,
    count: usize,
) -> Result<bool, NoMemory>
    ensures { IfOk result (λ b. b ≡ list_any (keeps_row kind recs.now (kept_by kept.now) asm) (range_with_len start count)) }
{
    for k in 0..count {
        let row = sum(start, k)?;
        let stays = is_kept(recs, kind, kept, RowAt { asm, row })?;
        if stays {
            return Ok(true);
        }
    }
    Ok(false)
}
