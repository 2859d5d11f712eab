//! The definitions that TypeRef rows name.

ghost use Rattle.std.specs.Prelude.{◌≡◌, IfOk};
ghost use Rattle.resolver.specs.type_links.Index.{IsIndex};
ghost use Rattle.rules.specs.merge_rules.Absent.{definition_of};
ghost use Rattle.token_keys.specs.copied_attributes.Rows.{NamesRow};

use il_base::world_model::token_of;
use il_base::{NoMemory, table};
use resolver::type_links::TypeIndex;
use rules::link_rules::RowAt;
use std::alloc::Global;

/// The token of a TypeRef row, from 0. A row whose token would be of another table has none: there is no memory for it.
fn reference_token(row: u32) -> Result<u32, NoMemory>
    ensures { IfOk result (NamesRow row) }
{
    if row >= 0xff_ffff {
        return Err(NoMemory);
    }
    let token = token_of(table::TYPE_REF, row as usize)?;
    Ok(token)
}

/// The definition that a TypeRef row names.
pub(crate) fn definition_of(
    alloc: Global,
    index: &TypeIndex<'_>,
    at: RowAt,
) -> Result<Option<RowAt>, NoMemory>
    requires { IsIndex index.now }
    ensures { IfOk result (λ def. def ≡ definition_of index.now.all.now at) }
{
    let token = reference_token(at.row)?;
    let def = index.definition_at(alloc, at.asm, token)?;
    Ok(def)
}
