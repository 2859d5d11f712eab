//! The tokens of rows by their places.

ghost use Rattle.std.specs.Prelude.{◌≡◌, IfOk};
ghost use Rattle.rules.specs.merge_rules.Refs.{row_token};

use il_base::NoMemory;
use il_base::world_model::wide_token;

/// The token of the row in a place, from 0, of a table, modulo 2^32; 0 for none.
pub fn row_token(table: u8, place: Option<usize>) -> Result<u32, NoMemory>
    ensures { IfOk result (λ token. token ≡ row_token table place) }
{
    let Some(place) = place else {
        return Ok(0);
    };
    let Ok(row) = u32::try_from(place) else {
        return Err(NoMemory);
    };
    Ok((wide_token(table, row) % 0x1_0000_0000) as u32)
}
