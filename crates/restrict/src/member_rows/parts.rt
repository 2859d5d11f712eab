//! What rows are made of.

ghost use Rattle.std.specs.Prelude.{◌≡◌, IfOk};
ghost use Rattle.restrict.specs.member_rows.Rows.{AreRowParts, recs_of, parent_by};

use il_base::NoMemory;
use il_base::world_model::TypeExpr;
use merge_plan::moved_parts::NewTokens;
use reference_rows::key_tokens::KeyTokens;
use std::alloc::Global;
use token_keys::types::expr_key;
use token_keys::world_keys::WorldKeys;

/// A world with its keys, and the tokens of the output by keys and by the numbers of types.
#[derive(Clone, Copy)]
pub struct RowParts<'a> {
    pub world: WorldKeys<'a>,
    pub keys: KeyTokens<'a>,
    /// The tokens of types by their numbers.
    pub numbers: &'a NewTokens,
}

/// The token of the type in which a member is found; 0 for one that has no row.
pub(crate) fn parent_token(
    alloc: Global,
    parts: &RowParts<'_>,
    owner: &TypeExpr,
) -> Result<u32, NoMemory>
    requires { AreRowParts parts.now }
    ensures { IfOk result (λ token. token ≡ parent_by parts.now.keys (recs_of parts.now) owner.now) }
{
    let marker = parts.world.marker;
    match expr_key(alloc, &marker.tables, owner) {
        Ok(Some(key)) => {
            let token = parts.keys.of_type(alloc, &key)?;
            Ok(token)
        }
        Ok(None) => Ok(0),
        Err(error) => Err(error),
    }
}
