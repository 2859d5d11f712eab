//! The types that members are in: the first whose run holds the member's row (II.22.37).

ghost use Rattle.std.specs.Prelude.{◌≡◌, ℕ, suc, ◌<◌, ◌≤◌, length, slice_index_or, Some, None, nat_le, nat_lt, ◌&&◌, if◌then◌else◌, IfOk};
ghost use Rattle.rules.specs.link_rules.Members.{is_in_run};
ghost use Rattle.link_faults.specs.Owners.{first_in, end_in, Owns};

use il_base::NoMemory;
use il_base::world_model::TypeDefRow;
use std::alloc::Global;

/// A kind of member.
#[derive(Clone, Copy, Debug, PartialEq, Eq)]
pub(crate) enum Member {
    Field,
    Method,
}

/// The first row, from 1, of a type's run of members.
fn first_in(kind: Member, row: &TypeDefRow) -> u32
    ensures { result ≡ first_in kind row.now }
{
    match kind {
        Member::Field => row.field_list_first,
        Member::Method => row.method_list_first,
    }
}

/// The row past the last of a type's run of members.
fn end_in(kind: Member, row: &TypeDefRow) -> u32
    ensures { result ≡ end_in kind row.now }
{
    match kind {
        Member::Field => row.field_list_end,
        Member::Method => row.method_list_end,
    }
}

/// Puts an owner into the places of a run, which begins and ends at rows from 1.
fn own_run(owners: &mut [Option<u32>], first: u32, end: u32, owner: u32)
    ensures { (k : ℕ) → k < length owners.new → slice_index_or owners.new k None ≡ (if is_in_run first end (suc k) then Some owner else slice_index_or owners.old k None) }
{
    let begin = first.saturating_sub(1) as usize;
    let finish = (end.saturating_sub(1) as usize).min(owners.len());
    for at in begin..finish {
        owners[at] = Some(owner);
    }
}

/// For each row of members the type, from 0, that it is in.
pub(crate) fn owners(
    alloc: Global,
    kind: Member,
    types: &[TypeDefRow],
    rows: usize,
) -> Result<Vec<Option<u32>>, NoMemory>
    ensures { IfOk result (λ owners. Owns kind types.now rows owners.items) }
{
    let mut owners = vec![in alloc; None; rows]?;
    for at in (0..types.len()).rev() {
        let Ok(owner) = u32::try_from(at) else {
            return Err(NoMemory);
        };
        let row = &types[at];
        own_run(&mut owners, first_in(kind, row), end_in(kind, row), owner);
    }
    Ok(owners)
}
