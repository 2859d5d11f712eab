//! The accessors of a property of one kind (II.22.28, II.23.1.12).

ghost use Rattle.std.specs.Prelude.{◌≡◌, ◌<◌, ◌++◌, suc, IfOk, OnOk, Some, slice_get};
ghost use Rattle.std.specs.List.{flat_map};
ghost use Rattle.il_base.specs.declared.table.TheConstants.{PROPERTY};
ghost use Rattle.il_base.specs.world_model.Tokens.{token_of as token_at};
ghost use Rattle.rules.specs.view_rules.Answers.{accessor_by, first_accessor};
ghost use Rattle.type_tables.specs.Tables.{AreRowTables};
ghost use Rattle.cil_world.specs.world_types.Accessors.{flagged_at, owned};

use il_base::world_model::{AsmRec, index_in, token_of};
use il_base::{NoMemory, has_flag, table};
use rules::link_rules::RowAt;
use std::alloc::Global;
use type_tables::methods::{has_owner, method_id};
use type_tables::tables::RowTables;

/// Puts a method, by its row from 0, at the end, where a type's run has it.
fn add_owned(
    rec: &AsmRec,
    tables: &RowTables,
    row: u32,
    found: &mut Vec<u32>,
) -> Result<(), NoMemory>
    requires { AreRowTables rec.now tables.now }
    ensures { OnOk result (found.new.items ≡ found.old.items ++ owned rec.now row) }
{
    if has_owner(rec, tables, row) {
        found.push(row)?;
    }
    Ok(())
}

/// Puts the method that a row, from 0, of MethodSemantics names at the end, where the row has a flag (II.23.1.12) and a type's run has
/// the method.
fn add_flagged(
    rec: &AsmRec,
    tables: &RowTables,
    flag: u16,
    k: u32,
    found: &mut Vec<u32>,
) -> Result<(), NoMemory>
    requires are { AreRowTables rec.now tables.now }
    requires bit { 0 < flag }
    ensures { OnOk result (found.new.items ≡ found.old.items ++ flagged_at flag rec.now k) }
{
    let Some(semantics) = rec.method_semantics.get(k as usize) else {
        return Ok(());
    };
    if !has_flag(semantics.semantics, flag) {
        return Ok(());
    }
    let Some(row) = index_in(table::METHOD_DEF, semantics.method) else {
        return Ok(());
    };
    add_owned(rec, tables, row, found)?;
    Ok(())
}

/// The methods that these rows, from 0, of MethodSemantics name as accessors of a kind, in order.
fn flagged_under(
    alloc: Global,
    rec: &AsmRec,
    tables: &RowTables,
    flag: u16,
    rows: &[u32],
) -> Result<Vec<u32>, NoMemory>
    requires are { AreRowTables rec.now tables.now }
    requires bit { 0 < flag }
    ensures { IfOk result (λ found. found.items ≡ flat_map (flagged_at flag rec.now) rows.now) }
{
    let mut found = Vec::new(alloc);
    for k in rows {
        add_flagged(rec, tables, flag, *k, &mut found)?;
    }
    Ok(found)
}

/// The accessors of a property of a kind, by their rows from 0.
fn accessors(
    alloc: Global,
    rec: &AsmRec,
    tables: &RowTables,
    flag: u16,
    property: u32,
) -> Result<Vec<u32>, NoMemory>
    requires are { AreRowTables rec.now tables.now }
    requires bit { 0 < flag }
    ensures { IfOk result (λ found. found.items ≡ flat_map (accessor_by flag rec.now (token_at PROPERTY (suc property))) rec.now.method_semantics) }
{
    let token = token_of(table::PROPERTY, property as usize)?;
    let rows = tables.semantics.rows_with(token);
    let found = flagged_under(alloc, rec, tables, flag, rows)?;
    Ok(found)
}

fn first_of(rows: &[u32]) -> Option<u32>
    ensures { result ≡ slice_get rows.now 0 }
{
    match rows {
        [] => None,
        [row, ..] => Some(*row),
    }
}

/// The first accessor of a property of a kind, by its place in the world.
#[tactic(auto, unfolding(rules::specs::view_rules::Answers::first_accessor))]
pub(crate) fn first_accessor(
    alloc: Global,
    all: &[AsmRec],
    rec: &AsmRec,
    tables: &RowTables,
    flag: u16,
    at: RowAt,
) -> Result<Option<u32>, NoMemory>
    requires are { AreRowTables rec.now tables.now }
    requires bit { 0 < flag }
    requires there { slice_get all.now at.asm ≡ Some rec.now }
    ensures { IfOk result (λ found. found ≡ first_accessor all.now flag at rec.now) }
{
    let rows = accessors(alloc, rec, tables, flag, at.row)?;
    match first_of(rows.as_slice()) {
        None => Ok(None),
        Some(row) => {
            let id = method_id(all, RowAt { asm: at.asm, row })?;
            Ok(Some(id.0))
        }
    }
}
