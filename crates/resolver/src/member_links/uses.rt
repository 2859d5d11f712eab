ghost use Rattle.std.specs.Prelude.{◌≡◌, ◌+◌, IfOk};
ghost use Rattle.std.specs.Option.{option_map};
ghost use Rattle.il_base.specs.world_model.Worlds.{rows_before};
ghost use Rattle.rules.specs.link_rules.Members.{method_use, field_use};
ghost use Rattle.type_tables.specs.member_search.Counted.{count_in};
ghost use Rattle.type_tables.specs.member_search.Found.{told};

use il_base::world_model::{AsmRec, BadKind, FieldUse, Known, MethodUse};
use il_base::{FieldId, MethodId, NoMemory, Seq};
use rules::link_rules::RowAt;
use std::alloc::Global;
use type_tables::member_search::counted::{Counted, rows_before, sum};
use type_tables::member_search::found::Found;

/// The most levels of the type that has a member.
const MOST_LEVELS: u32 = 64;

/// The id of a row, from 0, of an assembly: the rows of all assemblies before it count first.
fn id_of(all: &[AsmRec], counted: Counted, at: RowAt) -> Result<u32, NoMemory>
    ensures { IfOk result (λ id. id ≡ rows_before (count_in counted) all.now at.asm + at.row) }
{
    let before = rows_before(all, counted, at.asm as usize)?;
    sum(before, at.row as usize)
}

/// The use of a method that was found.
pub(crate) fn method_use(
    alloc: Global,
    all: &[AsmRec],
    found: Option<Found>,
) -> Result<Known<MethodUse>, NoMemory>
    ensures { IfOk result (λ u. u ≡ method_use all.now (option_map told found)) }
{
    let Some(Found { at, owner }) = found else {
        return Ok(Known::Bad(BadKind::Unresolved));
    };
    if owner.is_deeper(MOST_LEVELS) {
        return Ok(Known::Bad(BadKind::Outside(5)));
    }
    let id = id_of(all, Counted::Methods, at)?;
    Ok(Known::Good(MethodUse {
        method: MethodId(id),
        owner,
        args: Seq::new(alloc),
    }))
}

/// The use of a field that was found.
pub(crate) fn field_use(all: &[AsmRec], found: Option<Found>) -> Result<Known<FieldUse>, NoMemory>
    ensures { IfOk result (λ u. u ≡ field_use all.now (option_map told found)) }
{
    let Some(Found { at, owner }) = found else {
        return Ok(Known::Bad(BadKind::Unresolved));
    };
    if owner.is_deeper(MOST_LEVELS) {
        return Ok(Known::Bad(BadKind::Outside(5)));
    }
    let id = id_of(all, Counted::Fields, at)?;
    Ok(Known::Good(FieldUse {
        field: FieldId(id),
        owner,
    }))
}
