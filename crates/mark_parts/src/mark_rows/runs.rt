//! Runs of rows (II.22.37, II.22.35, II.22.12).

ghost use Rattle.std.specs.Prelude.{◌≡◌, ◌-◌, ◌++◌, map, IfOk, OnOk};
ghost use Rattle.std.specs.List.{range_with_len};
ghost use Rattle.rules.specs.link_rules.Types.{at_row};
ghost use Rattle.mark_parts.specs.mark_rows.Runs.{count_in, run_length};

use il_base::NoMemory;
use il_base::world_model::AsmRec;
use rules::link_rules::RowAt;
use std::alloc::Global;
use type_tables::member_search::owners::Run;

/// The tables that have runs of rows.
#[derive(Clone, Copy, Debug, PartialEq, Eq)]
pub enum Members {
    Method,
    Field,
    Property,
    Event,
}

/// How many such rows an assembly has.
fn count_in(rec: &AsmRec, members: Members) -> usize
    ensures { result ≡ count_in members rec.now }
{
    match members {
        Members::Method => rec.method_def.len(),
        Members::Field => rec.field.len(),
        Members::Property => rec.property.len(),
        Members::Event => rec.event.len(),
    }
}

/// Adds the rows of an assembly from `start` to before `end`.
fn add_rows(asm: u32, start: u32, end: u32, rows: &mut Vec<RowAt>) -> Result<(), NoMemory>
    ensures { OnOk result (rows.new.items ≡ rows.old.items ++ map (at_row asm) (range_with_len start (end - start))) }
{
    for row in start..end {
        rows.push(RowAt { asm, row })?;
    }
    Ok(())
}

/// Adds the rows of a run that are there.
#[tactic(auto, using(crate::proofs::lemmas::mark_rows::Running::as_long))]
pub(crate) fn add_run(
    rec: &AsmRec,
    members: Members,
    asm: u32,
    run: Run,
    rows: &mut Vec<RowAt>,
) -> Result<(), NoMemory>
    ensures { OnOk result (rows.new.items ≡ rows.old.items ++ map (at_row asm) (range_with_len (run.first - 1) (run_length members rec.now run))) }
{
    let start = run.first.saturating_sub(1);
    let end = start + run.end.saturating_sub(run.first);
    let count = u32::try_from(count_in(rec, members)).unwrap_or(u32::MAX);
    add_rows(asm, start, end.min(count), rows)?;
    Ok(())
}

/// The rows of a run that are there.
pub(crate) fn rows_of_run(
    alloc: Global,
    rec: &AsmRec,
    members: Members,
    asm: u32,
    run: Run,
) -> Result<Vec<RowAt>, NoMemory>
    ensures { IfOk result (λ rows. rows.items ≡ map (at_row asm) (range_with_len (run.first - 1) (run_length members rec.now run))) }
{
    let mut rows = Vec::new(alloc);
    add_run(rec, members, asm, run, &mut rows)?;
    Ok(rows)
}
