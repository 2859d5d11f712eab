//! The StandAloneSig rows of the output (II.22.36), which are locals.

ghost use Rattle.std.specs.Prelude.{◌≡◌, IfOk};
ghost use Rattle.token_keys.specs.signature_rows.Rows.{locals_row_by, locals_by};

use il_base::world_model::{Known, StandAloneSigRow};
use il_base::{NoMemory, Seq, Sig};
use merge_plan::moved_parts::{NewTokens, moved_sigs};
use std::alloc::Global;

fn locals_row(alloc: Global, tokens: &NewTokens, sigs: &[Sig]) -> Result<StandAloneSigRow, NoMemory>
    ensures { IfOk result (λ row. row ≡ locals_row_by tokens.now sigs.now) }
{
    let moved = moved_sigs(alloc, tokens, sigs)?;
    Ok(StandAloneSigRow {
        signature: Known::Good(moved),
    })
}

/// The rows of the output for locals over the types of the world. `tokens` has the new tokens of types by their numbers.
pub fn locals_rows(
    alloc: Global,
    tokens: &NewTokens,
    lists: &[Seq<Sig>],
) -> Result<Seq<StandAloneSigRow>, NoMemory>
    ensures { IfOk result (λ rows. rows ≡ locals_by tokens.now lists.now) }
{
    let mut rows = Seq::new(alloc);
    for list in lists {
        let row = locals_row(alloc, tokens, list.as_slice())?;
        rows.push(row)?;
    }
    Ok(rows)
}
