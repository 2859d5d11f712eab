//! Methods by their ids and rows.

ghost use Rattle.std.specs.Prelude.{◌≡◌, suc, Some, None, slice_get, slice_index_or, IfOk};
ghost use Rattle.std.specs.List.{position_from};
ghost use Rattle.std.specs.Option.{option_copied, option_map, option_and_then};
ghost use Rattle.il_base.specs.world_model.Worlds.{rows_before};
ghost use Rattle.rules.specs.link_rules.Members.{methods_in, owns_method, generic_method};
ghost use Rattle.rules.specs.type_rules.Slots.{method_row_at, method_home, type_of_method, type_of_row};
ghost use Rattle.rules.specs.type_rules.Dispatch.{good_use, method_id};
ghost use Rattle.rules.specs.type_rules.Searches.{has_owner};
ghost use Rattle.type_tables.specs.Uses.{use_in};
ghost use Rattle.type_tables.specs.Tables.{AreRowTables, IsTables};

use crate::member_search::counted::{Counted, row_of, rows_before, sum};
use crate::member_search::linked::assembly_at;
use crate::member_search::method_types::open_method_type;
use crate::tables::{RowTables, Tables};
use il_base::world_model::{AsmRec, Known, MethodDefRow, MethodUse, TypeDefRow, table_of};
use il_base::{AsmId, MethodId, NoMemory, table};
use rules::link_rules::{MethodType, RowAt};
use std::alloc::Global;

/// The row of a method.
pub fn method_row_at(all: &[AsmRec], at: RowAt) -> Option<&MethodDefRow>
    ensures { option_copied result ≡ method_row_at all.now at }
{
    match assembly_at(all, at.asm) {
        None => None,
        Some(rec) => rec.method_def.get(at.row as usize),
    }
}

/// The assembly and row of a method.
#[tactic(auto, unfolding(rules::specs::link_rules::Members::home_from))]
pub fn method_home(all: &[AsmRec], id: MethodId) -> Result<Option<RowAt>, NoMemory>
    ensures { IfOk result (λ at. at ≡ method_home all.now id) }
{
    let mut left = id.0;
    for (a, rec) in all.iter().enumerate() {
        let count = rec.method_def.len();
        if (left as usize) < count {
            let Ok(asm) = u32::try_from(a) else {
                return Err(NoMemory);
            };
            return Ok(Some(RowAt { asm, row: left }));
        }
        left -= count as u32;
    }
    Ok(None)
}

/// The id of a method: the methods of all assemblies before it count first.
pub fn method_id(all: &[AsmRec], at: RowAt) -> Result<MethodId, NoMemory>
    ensures { IfOk result (λ id. id ≡ method_id all.now at) }
{
    let before = rows_before(all, Counted::Methods, at.asm as usize)?;
    let id = sum(before, at.row as usize)?;
    Ok(MethodId(id))
}

/// Whether the run of a type holds a row, from 1.
fn owns_method(row: u64, t: &TypeDefRow) -> bool
    ensures { result ≡ owns_method row t.now }
{
    u64::from(t.method_list_first) <= row && row < u64::from(t.method_list_end)
}

/// The first type of an assembly whose run holds a method that isn't there, both by their rows from 0.
fn owner_beyond(rec: &AsmRec, row: u32) -> Option<usize>
    ensures { result ≡ position_from (owns_method (suc row)) 0 rec.now.type_def }
{
    let row = u64::from(row) + 1;
    rec.type_def
        .as_slice()
        .iter()
        .position(|t| owns_method(row, t))
}

/// The type that has a method, both by their rows from 0, as the tables have it.
fn owner_of_row(tables: &RowTables, row: u32) -> Option<u32>
    ensures { result ≡ slice_index_or tables.now.owners.items row None }
{
    match tables.owners.get(row as usize) {
        Some(owner) => *owner,
        None => None,
    }
}

/// The type of an assembly that has a method, both by their rows from 0.
fn owner_row(rec: &AsmRec, tables: &RowTables, row: u32) -> Result<Option<u32>, NoMemory>
    requires { AreRowTables rec.now tables.now }
    ensures { IfOk result (λ owner. owner ≡ position_from (owns_method (suc row)) 0 rec.now.type_def) }
{
    if (row as usize) < rec.method_def.len() {
        return Ok(owner_of_row(tables, row));
    }
    match owner_beyond(rec, row) {
        Some(t) => {
            let t = row_of(t)?;
            Ok(Some(t))
        }
        None => Ok(None),
    }
}

/// Whether the run of a type of an assembly has a method, by its row from 0 (II.22.37).
#[tactic(auto, using(crate::proofs::Owned::is_there))]
pub fn has_owner(rec: &AsmRec, tables: &RowTables, row: u32) -> bool
    requires { AreRowTables rec.now tables.now }
    ensures { result ≡ has_owner rec.now row }
{
    if (row as usize) < rec.method_def.len() {
        return owner_of_row(tables, row).is_some();
    }
    owner_beyond(rec, row).is_some()
}

/// The type that has a method.
pub fn type_of_method(tables: &Tables<'_>, at: RowAt) -> Result<Option<RowAt>, NoMemory>
    requires { IsTables tables.now }
    ensures { IfOk result (λ of. of ≡ type_of_method tables.now.world.now.recs at) }
{
    let Some(rows) = tables.rows_at(at.asm) else {
        return Ok(None);
    };
    match owner_row(rows.scope.rec, rows.tables, at.row) {
        Ok(Some(row)) => Ok(Some(RowAt { asm: at.asm, row })),
        Ok(None) => Ok(None),
        Err(error) => Err(error),
    }
}

/// The signature of a method with its types, in the parameters of its own type; None where there is no such method.
pub fn method_type_at(
    alloc: Global,
    tables: &Tables<'_>,
    at: RowAt,
) -> Result<Option<Known<MethodType>>, NoMemory>
    requires { IsTables tables.now }
    ensures { IfOk result (λ ty. ty ≡ type_of_row tables.now.world.now.recs at) }
{
    let Some(rows) = tables.rows_at(at.asm) else {
        return Ok(None);
    };
    let Some(row) = rows.scope.rec.method_def.get(at.row as usize) else {
        return Ok(None);
    };
    match &row.signature {
        Known::Bad(why) => Ok(Some(Known::Bad(*why))),
        Known::Good(sig) => match open_method_type(alloc, &rows.scope, sig) {
            Ok(made) => Ok(Some(made)),
            Err(error) => Err(error),
        },
    }
}

/// The method that a MethodDef or MemberRef token of an assembly names, if any.
pub fn use_at<'w>(tables: &Tables<'w>, asm: u32, token: u32) -> Option<&'w MethodUse>
    requires { IsTables tables.now }
    ensures { option_copied result ≡ use_in tables.now.world.now.recs asm token }
{
    assembly_at(tables.world.recs.as_slice(), asm)?;
    let table = table_of(token);
    if table != table::METHOD_DEF && table != table::MEMBER_REF {
        return None;
    }
    match tables.world.method_at(AsmId(asm), token) {
        Some(Known::Good(named)) => Some(named),
        Some(Known::Bad(_)) => None,
        None => None,
    }
}
