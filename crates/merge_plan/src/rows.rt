//! The rows of a kind of all inputs, and those that are kept.

ghost use Rattle.std.specs.Prelude.{◌≡◌, ◌-◌, ◌++◌, length, map, take, IfOk, OnOk};
ghost use Rattle.std.specs.List.{range_with_len};
ghost use Rattle.il_base.specs.world_model.Worlds.{rows_before};
ghost use Rattle.rules.specs.link_rules.Types.{at_row};
ghost use Rattle.merge_plan.specs.Kept.{all_of_kind, count_in, item_at, kept_by, kept_of_kind};

use crate::kept::{KeptItems, Kind};
use il_base::NoMemory;
use il_base::world_model::AsmRec;
use rules::link_rules::RowAt;
use std::alloc::Global;
use type_tables::member_search::counted::{row_of, sum};

/// How many rows of a kind an assembly has.
fn count_in(rec: &AsmRec, kind: Kind) -> usize
    ensures { result ≡ count_in kind rec.now }
{
    match kind {
        Kind::Types => rec.type_def.len(),
        Kind::Methods => rec.method_def.len(),
        Kind::Fields => rec.field.len(),
        Kind::Properties => rec.property.len(),
        Kind::Events => rec.event.len(),
        Kind::Interfaces => rec.interface_impl.len(),
    }
}

/// How many rows of a kind the first `a` assemblies have.
#[tactic(auto, unfolding(il_base::specs::world_model::Worlds::rows_before))]
pub(crate) fn rows_before(recs: &[AsmRec], kind: Kind, a: usize) -> Result<u32, NoMemory>
    ensures { IfOk result (λ n. n ≡ rows_before (count_in kind) recs.now a) }
{
    let mut before = 0u32;
    for (i, rec) in recs.iter().enumerate() {
        if i == a {
            break;
        }
        before = sum(before, count_in(rec, kind))?;
    }
    Ok(before)
}

/// All assemblies but the core library, which is the last.
pub fn inputs(recs: &[AsmRec]) -> &[AsmRec]
    ensures { result.now ≡ take (length recs.now - 1) recs.now }
{
    &recs[..recs.len().saturating_sub(1)]
}

/// Adds `count` rows of an assembly, the first of which is `start`, from 0.
pub fn push_run(rows: &mut Vec<RowAt>, asm: u32, start: u32, count: usize) -> Result<(), NoMemory>
    ensures { OnOk result (rows.new.items ≡ rows.old.items ++ map (at_row asm) (range_with_len start count)) }
{
    for k in 0..count {
        let row = sum(start, k)?;
        rows.push(RowAt { asm, row })?;
    }
    Ok(())
}

/// The rows of a kind of all inputs, in the order of the inputs and of the rows.
pub fn rows_of_kind(alloc: Global, recs: &[AsmRec], kind: Kind) -> Result<Vec<RowAt>, NoMemory>
    ensures { IfOk result (λ rows. rows.items ≡ all_of_kind kind recs.now) }
{
    let mut rows = Vec::new(alloc);
    for (a, rec) in inputs(recs).iter().enumerate() {
        let asm = row_of(a)?;
        push_run(&mut rows, asm, 0, count_in(rec, kind))?;
    }
    Ok(rows)
}

/// Whether the item of a row is kept.
pub fn is_kept(recs: &[AsmRec], kind: Kind, kept: &KeptItems, at: RowAt) -> Result<bool, NoMemory>
    ensures { IfOk result (λ b. b ≡ kept_by kept.now (item_at kind recs.now at)) }
{
    let before = rows_before(recs, kind, at.asm as usize)?;
    let id = sum(before, at.row as usize)?;
    Ok(kept.keeps(kind, id))
}

/// The rows of the kept items of a kind: the inputs in their order, and of each input the rows in their order.
pub fn kept_rows(
    alloc: Global,
    recs: &[AsmRec],
    kind: Kind,
    kept: &KeptItems,
) -> Result<Vec<RowAt>, NoMemory>
    ensures { IfOk result (λ rows. rows.items ≡ kept_of_kind kind recs.now (kept_by kept.now)) }
{
    let all = rows_of_kind(alloc, recs, kind)?;
    let mut rows = Vec::new(alloc);
    for at in &all {
        let stays = is_kept(recs, kind, kept, *at)?;
        if stays {
            rows.push(*at)?;
        }
    }
    Ok(rows)
}
