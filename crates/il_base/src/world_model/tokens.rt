//! Metadata tokens (II.22): the table's number in the high byte, and the row from 1 below it.

ghost use Rattle.std.specs.Prelude.{◌≡◌, ◌<◌, suc, IfOk};
ghost use Rattle.il_base.specs.world_model.Tokens.{token_of, table_of, row_of, index_in};

use crate::NoMemory;

/// How far the tokens of a table and of the next one are apart.
const ROWS: u32 = 0x100_0000;

/// The token of the first row of TypeDef (II.22.37).
pub const FIRST_TYPE_DEF: u32 = 0x0200_0001;

/// The number of the table whose row a token names.
pub fn table_of(token: u32) -> u8
    ensures { result ≡ table_of token }
{
    (token / ROWS) as u8
}

/// The row, from 1, that a token names, 0 for none.
pub fn row_of(token: u32) -> u32
    ensures value { result ≡ row_of token }
    ensures small { result < 16777216 }
{
    token % ROWS
}

/// The place, from 0, of the row that a token of this table names; None for a token of another table or row 0.
pub fn index_in(table: u8, token: u32) -> Option<u32>
    ensures { result ≡ index_in table token }
{
    if table_of(token) != table {
        return None;
    }
    let row = row_of(token);
    if row == 0 { None } else { Some(row - 1) }
}

/// The token of a row, from 0, of a table, in 64 bits.
pub fn wide_token(table: u8, row: u32) -> u64
    ensures { result ≡ token_of table (suc row) }
{
    u64::from(table) * u64::from(ROWS) + u64::from(row) + 1
}

/// The token of a row, from 0, of a table. Where it has more than 32 bits, there is no memory for such a row.
pub fn token_of(table: u8, row: usize) -> Result<u32, NoMemory>
    ensures { IfOk result (λ token. token ≡ token_of table (suc row)) }
{
    let Ok(row) = u32::try_from(row) else {
        return Err(NoMemory);
    };
    match u32::try_from(wide_token(table, row)) {
        Ok(token) => Ok(token),
        Err(_) => Err(NoMemory),
    }
}
