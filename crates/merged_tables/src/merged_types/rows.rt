//! TypeDef rows.

ghost use Rattle.std.specs.Prelude.{◌≡◌, ◌++◌, slice_get, IfOk, OnOk};
ghost use Rattle.std.specs.Option.{option_copied};
ghost use Rattle.resolver.specs.type_links.Index.{IsIndex};
ghost use Rattle.merged_tables.specs.merged_types.Types.{type_by, type_of, type_defs_by};

use crate::merged_types::names::{id_of, written_name};
use crate::merged_types::visibility::{visibility, without};
use il_base::world_model::TypeDefRow;
use il_base::{NoMemory, Seq, type_flags};
use merge_plan::kept_tables::tables::ItemTables;
use merge_plan::moved_parts::NewTokens;
use merge_plan::outcome::Plan;
use resolver::type_links::TypeIndex;
use rules::link_rules::RowAt;
use std::alloc::Global;
use type_tables::member_search::linked::assembly_at;

/// The row of the output that is made of the row of a type.
fn moved_type(
    alloc: Global,
    index: &TypeIndex<'_>,
    plan: &Plan,
    tables: &ItemTables,
    tokens: &NewTokens,
    at: RowAt,
    row: &TypeDefRow,
) -> Result<TypeDefRow, NoMemory>
    requires { IsIndex index.now }
    ensures { IfOk result (λ made. made ≡ type_by index.now.all.now plan.now tables.now tokens.now at row.now) }
{
    let id = id_of(index.all, at)?;
    let name = Seq::from_slice(
        alloc,
        written_name(plan.names.as_slice(), id, row.name.as_slice()),
    )?;
    let namespace = Seq::from_slice(alloc, row.namespace.as_slice())?;
    let flags = without(type_flags::HAS_SECURITY, row.flags);
    let field_list_first = tables.fields.run_at(at.asm, row.field_list_first)?;
    let field_list_end = tables.fields.run_at(at.asm, row.field_list_end)?;
    let method_list_first = tables.methods.run_at(at.asm, row.method_list_first)?;
    let method_list_end = tables.methods.run_at(at.asm, row.method_list_end)?;
    Ok(TypeDefRow {
        flags: visibility(index, plan.internal, at, flags),
        name,
        namespace,
        extends: tokens.types.get(row.extends),
        field_list_first,
        field_list_end,
        method_list_first,
        method_list_end,
    })
}

/// The new tokens of the assembly in a place, from 0.
fn tokens_at(tokens: &[NewTokens], asm: u32) -> Option<&NewTokens>
    ensures { option_copied result ≡ slice_get tokens.now asm }
{
    tokens.get(asm as usize)
}

/// Puts the row of the output at the end that is made of a row.
fn push_type(
    alloc: Global,
    index: &TypeIndex<'_>,
    plan: &Plan,
    tables: &ItemTables,
    tokens: &[NewTokens],
    at: RowAt,
    rows: &mut Seq<TypeDefRow>,
) -> Result<(), NoMemory>
    requires { IsIndex index.now }
    ensures { OnOk result (rows.new ≡ rows.old ++ type_of index.now.all.now plan.now tables.now tokens.now at) }
{
    let Some(rec) = assembly_at(index.all, at.asm) else {
        return Ok(());
    };
    let Some(new) = tokens_at(tokens, at.asm) else {
        return Ok(());
    };
    let Some(row) = rec.type_def.get(at.row as usize) else {
        return Ok(());
    };
    let moved = moved_type(alloc, index, plan, tables, new, at, row)?;
    rows.push(moved)?;
    Ok(())
}

/// The rows of the output, of the kept types in their order. `tokens` has the new tokens of each assembly.
pub fn type_defs(
    alloc: Global,
    index: &TypeIndex<'_>,
    plan: &Plan,
    tables: &ItemTables,
    tokens: &[NewTokens],
) -> Result<Seq<TypeDefRow>, NoMemory>
    requires { IsIndex index.now }
    ensures { IfOk result (λ rows. rows ≡ type_defs_by index.now.all.now plan.now tables.now tokens.now) }
{
    let mut rows = Seq::new(alloc);
    for at in tables.types.rows() {
        push_type(alloc, index, plan, tables, tokens, *at, &mut rows)?;
    }
    Ok(rows)
}
