ghost use Rattle.std.specs.Prelude.{◌≡◌, ℕ, ◌<◌, suc, length, map, IfOk, Some, None, slice_index_or, if◌then◌else◌};
ghost use Rattle.std.specs.List.{position_from};
ghost use Rattle.type_tables.specs.member_search.Owners.{holds, method_run, field_run, AreOwners, AreMethodOwners, AreFieldOwners};

use il_base::NoMemory;
use il_base::world_model::AsmRec;
use std::alloc::Global;

/// The rows of a table that a type holds, from 1.
#[derive(Clone, Copy)]
pub struct Run {
    pub first: u32,
    /// The row past the last.
    pub end: u32,
}

/// The runs of the types' methods.
pub fn method_runs(alloc: Global, rec: &AsmRec) -> Result<Vec<Run>, NoMemory>
    ensures { IfOk result (λ runs. runs.items ≡ map method_run rec.now.type_def) }
{
    let mut runs = Vec::new(alloc);
    for row in rec.type_def.as_slice() {
        runs.push(Run {
            first: row.method_list_first,
            end: row.method_list_end,
        })?;
    }
    Ok(runs)
}

/// The runs of the types' fields.
pub fn field_runs(alloc: Global, rec: &AsmRec) -> Result<Vec<Run>, NoMemory>
    ensures { IfOk result (λ runs. runs.items ≡ map field_run rec.now.type_def) }
{
    let mut runs = Vec::new(alloc);
    for row in rec.type_def.as_slice() {
        runs.push(Run {
            first: row.field_list_first,
            end: row.field_list_end,
        })?;
    }
    Ok(runs)
}

/// Makes a type the owner of the rows of a run.
fn put_owner(owners: &mut [Option<u32>], run: Run, owner: u32)
    ensures { (k : ℕ) → k < length owners.old → slice_index_or owners.new k None ≡ (if holds (suc k) run then Some owner else slice_index_or owners.old k None) }
{
    let end = owners.len().min(run.end.saturating_sub(1) as usize);
    let start = end.min(run.first.saturating_sub(1) as usize);
    for i in start..end {
        owners[i] = Some(owner);
    }
}

/// The owner of each row of a table: the first type whose run it is in.
pub fn owners_of(alloc: Global, runs: &[Run], rows: usize) -> Result<Vec<Option<u32>>, NoMemory>
    ensures { IfOk result (λ owners. AreOwners runs.now rows owners.items) }
{
    let mut owners = vec![in alloc; None; rows]?;
    for t in (0..runs.len()).rev() {
        let Ok(owner) = u32::try_from(t) else {
            return Err(NoMemory);
        };
        put_owner(&mut owners, runs[t], owner);
    }
    Ok(owners)
}

/// The first type whose run each method of an assembly is in, both by their rows from 0.
pub fn method_owners(alloc: Global, rec: &AsmRec) -> Result<Vec<Option<u32>>, NoMemory>
    ensures { IfOk result (λ owners. AreMethodOwners rec.now owners.items) }
{
    let runs = method_runs(alloc, rec)?;
    let owners = owners_of(alloc, runs.as_slice(), rec.method_def.len())?;
    Ok(owners)
}

/// The first type whose run each field of an assembly is in, both by their rows from 0.
pub fn field_owners(alloc: Global, rec: &AsmRec) -> Result<Vec<Option<u32>>, NoMemory>
    ensures { IfOk result (λ owners. AreFieldOwners rec.now owners.items) }
{
    let runs = field_runs(alloc, rec)?;
    let owners = owners_of(alloc, runs.as_slice(), rec.field.len())?;
    Ok(owners)
}
