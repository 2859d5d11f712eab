//! The tokens that kept rows have in the output.

ghost use Rattle.std.specs.Prelude.{◌≡◌, ◌∷◌, []};
ghost use Rattle.il_base.specs.world_model.Tokens.{index_in};
ghost use Rattle.rules.specs.link_rules.Types.{at_row};
ghost use Rattle.rules.specs.merge_rules.Rows.{token_32, place_token};
ghost use Rattle.merge_plan.specs.kept_tables.Places.{token_in, owner_in};

use crate::Numbers;
use il_base::table;
use il_base::world_model::{index_in, table_of};
use rules::link_rules::RowAt;

/// The row, from 0, that a token of this table names; None for a token of another table or row 0.
pub(crate) fn row_in(table: u8, token: u32) -> Option<u32>
    ensures { result ≡ index_in table token }
{
    let of = table_of(token);
    if of != table {
        return None;
    }
    index_in(of, token)
}

/// The token of the row after `k` others, modulo 2^32.
fn token_32(table: u8, k: u32) -> u32
    ensures { result ≡ token_32 table k }
{
    ((u64::from(table) * 0x100_0000 + u64::from(k) + 1) % 0x1_0000_0000) as u32
}

/// The token of a row among the rows of a table of the output; None where the row isn't kept.
pub(crate) fn place_token(table: u8, rows: &Numbers, at: RowAt) -> Option<u32>
    ensures { result ≡ place_token table rows.now at }
{
    match rows.new_row(at) {
        None => None,
        Some(k) => Some(token_32(table, k)),
    }
}

/// The token of the first row of the first input; None for another row.
pub(crate) fn first_token(table: u8, at: RowAt) -> Option<u32>
    ensures { result ≡ place_token table (at_row 0 0 ∷ []) at }
{
    if at.asm == 0 && at.row == 0 {
        Some(token_32(table, 0))
    } else {
        None
    }
}

/// The new token of a token of this table of an assembly; None where its row isn't kept, or where it is of another table.
pub(crate) fn token_in(table: u8, rows: &Numbers, asm: u32, token: u32) -> Option<u32>
    ensures { result ≡ token_in table rows.now asm token }
{
    match row_in(table, token) {
        None => None,
        Some(row) => place_token(table, rows, RowAt { asm, row }),
    }
}

/// The new token of the owner of a generic parameter (II.22.20).
pub(crate) fn owner_in(types: &Numbers, methods: &Numbers, asm: u32, token: u32) -> Option<u32>
    ensures { result ≡ owner_in types.now methods.now asm token }
{
    if table_of(token) == table::TYPE_DEF {
        token_in(table::TYPE_DEF, types, asm, token)
    } else {
        token_in(table::METHOD_DEF, methods, asm, token)
    }
}
