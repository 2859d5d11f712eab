//! Rows of CustomAttribute by their parents.

ghost use Rattle.std.specs.Prelude.{◌≡◌, ◌++◌, IfOk, OnOk};
ghost use Rattle.std.specs.List.{flat_map};
ghost use Rattle.rules.specs.mark_rules.Attributes.{tokens_in};
ghost use Rattle.mark_parts.specs.mark_tables.Assemblies.{rec_of, IsAssembly};
ghost use Rattle.attribute_values.specs.attribute_rows.Parents.{rows_of_token, rows_of_tokens};

use crate::attribute_rows::tokens::tokens_in;
use il_base::{Item, NoMemory};
use mark_parts::mark_tables::assembly::Assembly;
use std::alloc::Global;

/// The rows, from 0, of CustomAttribute whose parent is a token, in order.
pub fn rows_of_token<'a>(asm: &Assembly<'a>, token: u32) -> &'a [u32]
    requires { IsAssembly asm.now }
    ensures { result.now ≡ rows_of_token (rec_of asm.now) token }
{
    asm.owners.attributes.rows_with(token)
}

/// The rows of each of these tokens, one after the other.
fn rows_of_each(alloc: Global, asm: &Assembly<'_>, tokens: &[u32]) -> Result<Vec<u32>, NoMemory>
    requires { IsAssembly asm.now }
    ensures { IfOk result (λ rows. rows.items ≡ flat_map (rows_of_token (rec_of asm.now)) tokens.now) }
{
    let mut rows = Vec::new(alloc);
    for token in tokens {
        let of_token = rows_of_token(asm, *token);
        rows.extend_from_slice(of_token)?;
    }
    Ok(rows)
}

/// The rows, from 0, of CustomAttribute whose parent is one of these tokens, in order.
pub fn rows_of_tokens(
    alloc: Global,
    asm: &Assembly<'_>,
    tokens: &[u32],
) -> Result<Vec<u32>, NoMemory>
    requires { IsAssembly asm.now }
    ensures { IfOk result (λ rows. rows.items ≡ rows_of_tokens (rec_of asm.now) tokens.now) }
{
    let mut rows = rows_of_each(alloc, asm, tokens)?;
    rows.sort_unstable();
    rows.dedup();
    Ok(rows)
}

/// The rows, from 0, of CustomAttribute that belong to an item, which has this row, from 0: those whose parent is one of its
/// tokens, in order.
pub fn rows_of_item(
    alloc: Global,
    asm: &Assembly<'_>,
    item: Item,
    row: u32,
) -> Result<Vec<u32>, NoMemory>
    requires { IsAssembly asm.now }
    ensures { IfOk result (λ rows. rows.items ≡ rows_of_tokens (rec_of asm.now) (tokens_in item row (rec_of asm.now))) }
{
    let tokens = tokens_in(alloc, asm, item, row)?;
    let rows = rows_of_tokens(alloc, asm, tokens.as_slice())?;
    Ok(rows)
}
