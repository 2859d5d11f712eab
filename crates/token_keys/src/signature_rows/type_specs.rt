//! The TypeSpec rows of the output (II.22.39).

ghost use Rattle.std.specs.Prelude.{◌≡◌, IfOk};
ghost use Rattle.token_keys.specs.signature_rows.Rows.{type_spec_by, type_specs_by};

use il_base::world_model::{Known, TypeSpecRow};
use il_base::{NoMemory, Seq, Sig};
use merge_plan::moved_parts::{NewTokens, moved_sig};
use std::alloc::Global;

fn type_spec(alloc: Global, tokens: &NewTokens, sig: &Sig) -> Result<TypeSpecRow, NoMemory>
    ensures { IfOk result (λ row. row ≡ type_spec_by tokens.now sig.now) }
{
    let moved = moved_sig(alloc, tokens, sig)?;
    Ok(TypeSpecRow {
        signature: Known::Good(moved),
    })
}

/// The rows of the output for signatures over the types of the world. `tokens` has the new tokens of types by their numbers.
pub fn type_spec_rows(
    alloc: Global,
    tokens: &NewTokens,
    sigs: &[Sig],
) -> Result<Seq<TypeSpecRow>, NoMemory>
    ensures { IfOk result (λ rows. rows ≡ type_specs_by tokens.now sigs.now) }
{
    let mut rows = Seq::new(alloc);
    for sig in sigs {
        let row = type_spec(alloc, tokens, sig)?;
        rows.push(row)?;
    }
    Ok(rows)
}
