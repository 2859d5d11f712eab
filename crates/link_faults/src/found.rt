//! Faults of rows.

ghost use Rattle.std.specs.Prelude.{◌≡◌, suc, IfOk};
ghost use Rattle.il_base.specs.world_model.Tokens.{token_of};
ghost use Rattle.rules.specs.declared.link_rules.link_error.LinkError.TheVariants as fault;

use il_base::NoMemory;
use il_base::world_model::token_of;
use rules::link_rules::LinkError;

/// The fault of a row of this table; rows and files count from 0. Where its token has more than 32 bits, there is no
/// memory for such a row.
pub(crate) fn row_fault(file: usize, why: u8, table: u8, row: usize) -> Result<LinkError, NoMemory>
    ensures { IfOk result (λ found. found ≡ fault.Bad file why (token_of table (suc row))) }
{
    let Ok(file) = u32::try_from(file) else {
        return Err(NoMemory);
    };
    let token = token_of(table, row)?;
    Ok(LinkError::Bad { file, why, token })
}
