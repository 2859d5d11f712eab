//! Fields and methods of a type: the rows of its run that have a name, by the rows with the name.

ghost use Rattle.std.specs.Prelude.{◌≡◌, ◌-◌, map, IfOk};
ghost use Rattle.std.specs.List.Sorted.{IsNonDecreasing};
ghost use Rattle.rules.specs.link_rules.Types.{at_row};
ghost use Rattle.virtual_calls.specs.named_members.Runs.{before_end, AreInRun};

use il_base::NoMemory;
use rules::link_rules::RowAt;
use std::alloc::Global;
use type_tables::member_search::names::first_from;
use type_tables::member_search::owners::Run;

/// The first of these rows of an assembly, up to one that isn't before an end.
fn before_end(alloc: Global, asm: u32, rows: &[u32], end: u32) -> Result<Vec<RowAt>, NoMemory>
    ensures { IfOk result (λ found. found.items ≡ map (at_row asm) (before_end end rows.now)) }
{
    let mut found = Vec::new(alloc);
    for row in rows {
        if *row >= end {
            return Ok(found);
        }
        found.push(RowAt { asm, row: *row })?;
    }
    Ok(found)
}

/// Those of these rows of an assembly, from 0 and in order, that are in a run.
pub fn in_run(alloc: Global, asm: u32, rows: &[u32], run: Run) -> Result<Vec<RowAt>, NoMemory>
    requires { IsNonDecreasing rows.now }
    ensures { IfOk result (λ found. AreInRun asm rows.now run found.items) }
{
    let start = run.first.saturating_sub(1);
    let end = start + run.end.saturating_sub(run.first);
    let from = first_from(rows, start);
    let found = before_end(alloc, asm, &rows[from..], end)?;
    Ok(found)
}
