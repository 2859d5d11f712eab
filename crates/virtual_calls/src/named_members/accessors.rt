//! The accessors of properties and events, by the rows of MethodSemantics that belong to them.

ghost use Rattle.std.specs.Prelude.{◌≡◌, ◌++◌, IfOk, OnOk, option_to_list};
ghost use Rattle.std.specs.List.{flat_map, list_any};
ghost use Rattle.rules.specs.type_rules.Searches.{accessors, method_test, is_public_accessor, is_instance_accessor};
ghost use Rattle.type_tables.specs.Tables.{AreRowTables, IsTables};
ghost use Rattle.virtual_calls.specs.named_members.Accessors.{table_of, owned_at, method_under};

use crate::named_members::kinds::Mapped;
use il_base::world_model::{AsmRec, index_in, token_of};
use il_base::{NoMemory, access_of, has_flag, method_flags, table};
use rules::link_rules::RowAt;
use std::alloc::Global;
use type_tables::methods::{has_owner, method_row_at};
use type_tables::tables::{RowTables, Tables};

/// The table of such rows (II.22).
fn table_of(mapped: Mapped) -> u8
    ensures { result ≡ table_of mapped }
{
    match mapped {
        Mapped::Property => table::PROPERTY,
        Mapped::Event => table::EVENT,
    }
}

/// Puts a method, by its row from 0, at the end, where a type's run has it.
fn add_owned(
    rec: &AsmRec,
    tables: &RowTables,
    asm: u32,
    row: u32,
    found: &mut Vec<RowAt>,
) -> Result<(), NoMemory>
    requires { AreRowTables rec.now tables.now }
    ensures { OnOk result (found.new.items ≡ found.old.items ++ owned_at rec.now asm row) }
{
    if has_owner(rec, tables, row) {
        found.push(RowAt { asm, row })?;
    }
    Ok(())
}

/// Puts the method that a row, from 0, of MethodSemantics names at the end, where a type's run has it.
fn add_method(
    rec: &AsmRec,
    tables: &RowTables,
    asm: u32,
    k: u32,
    found: &mut Vec<RowAt>,
) -> Result<(), NoMemory>
    requires { AreRowTables rec.now tables.now }
    ensures { OnOk result (found.new.items ≡ found.old.items ++ method_under rec.now asm k) }
{
    let Some(semantics) = rec.method_semantics.get(k as usize) else {
        return Ok(());
    };
    let Some(row) = index_in(table::METHOD_DEF, semantics.method) else {
        return Ok(());
    };
    add_owned(rec, tables, asm, row, found)?;
    Ok(())
}

/// The methods that these rows, from 0, of MethodSemantics name and that types have, in order.
fn methods_under(
    alloc: Global,
    rec: &AsmRec,
    tables: &RowTables,
    asm: u32,
    rows: &[u32],
) -> Result<Vec<RowAt>, NoMemory>
    requires { AreRowTables rec.now tables.now }
    ensures { IfOk result (λ found. found.items ≡ flat_map (method_under rec.now asm) rows.now) }
{
    let mut found = Vec::new(alloc);
    for k in rows {
        add_method(rec, tables, asm, *k, &mut found)?;
    }
    Ok(found)
}

/// The accessors of a property or an event.
pub fn accessors(
    alloc: Global,
    tables: &Tables<'_>,
    mapped: Mapped,
    at: RowAt,
) -> Result<Vec<RowAt>, NoMemory>
    requires { IsTables tables.now }
    ensures { IfOk result (λ found. found.items ≡ accessors tables.now.world.now.recs (table_of mapped) at) }
{
    let Some(rows) = tables.rows_at(at.asm) else {
        return Ok(Vec::new(alloc));
    };
    let token = token_of(table_of(mapped), at.row as usize)?;
    let semantics = rows.tables.semantics.rows_with(token);
    let found = methods_under(alloc, rows.scope.rec, rows.tables, at.asm, semantics)?;
    Ok(found)
}

fn is_public_at(all: &[AsmRec], at: RowAt) -> bool
    ensures { result ≡ method_test all.now is_public_accessor at }
{
    match method_row_at(all, at) {
        Some(row) => access_of(row.flags) == method_flags::PUBLIC,
        None => false,
    }
}

fn is_instance_at(all: &[AsmRec], at: RowAt) -> bool
    ensures { result ≡ method_test all.now is_instance_accessor at }
{
    match method_row_at(all, at) {
        Some(row) => !has_flag(row.flags, method_flags::STATIC),
        None => false,
    }
}

/// Whether one of these methods is public.
pub fn any_public(all: &[AsmRec], methods: &[RowAt]) -> bool
    ensures { result ≡ list_any (method_test all.now is_public_accessor) methods.now }
{
    methods.iter().any(|at| is_public_at(all, *at))
}

/// Whether one of these methods is of instances.
pub fn any_instance(all: &[AsmRec], methods: &[RowAt]) -> bool
    ensures { result ≡ list_any (method_test all.now is_instance_accessor) methods.now }
{
    methods.iter().any(|at| is_instance_at(all, *at))
}
