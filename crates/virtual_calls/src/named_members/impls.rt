//! MethodImpl rows (II.22.27) by which a method overrides another.

ghost use Rattle.std.specs.Prelude.{◌≡◌, IfOk};
ghost use Rattle.std.specs.List.{list_any};
ghost use Rattle.rules.specs.type_rules.Slots.{slot_of};
ghost use Rattle.rules.specs.type_rules.Searches.{same_slot, declares, has_impl};
ghost use Rattle.type_tables.specs.Tables.{IsTables};
ghost use Rattle.virtual_calls.specs.Slots.{AreSlots};
ghost use Rattle.virtual_calls.specs.named_members.Impls.{names_body, says_so, says_so_at, has_impl_at};

use crate::impls::{body_at, same_row};
use crate::slots::Slots;
use il_base::world_model::{AsmRec, MethodImplRow, MethodUse, TypeExpr, token_of};
use il_base::{NoMemory, table};
use rules::link_rules::RowAt;
use std::alloc::Global;
use type_tables::member_search::bases::definition;
use type_tables::methods::{method_home, use_at};
use type_tables::tables::Tables;

/// Whether two slots are there and the same.
pub fn same_slot(x: Option<RowAt>, y: Option<RowAt>) -> bool
    ensures { result ≡ same_slot x y }
{
    match x {
        None => false,
        Some(x) => match y {
            None => false,
            Some(y) => same_row(y, x),
        },
    }
}

/// Whether a declaration has this slot.
fn declares(
    tables: &Tables<'_>,
    slots: &Slots,
    slot: Option<RowAt>,
    declaration: &MethodUse,
) -> Result<bool, NoMemory>
    requires { AreSlots tables.now.world.now.recs slots.now }
    ensures { IfOk result (λ is. is ≡ declares tables.now.world.now.recs slot declaration.now) }
{
    match method_home(tables.world.recs.as_slice(), declaration.method) {
        Ok(Some(at)) => Ok(same_slot(slot, slots.at(at))),
        Ok(None) => Ok(false),
        Err(error) => Err(error),
    }
}

/// Whether this is a body for a class, and this method.
fn names_body(
    alloc: Global,
    tables: &Tables<'_>,
    ty: &TypeExpr,
    body: RowAt,
    named: &MethodUse,
) -> Result<bool, NoMemory>
    requires { IsTables tables.now }
    ensures { IfOk result (λ is. is ≡ names_body tables.now.world.now.recs ty.now body named.now) }
{
    match method_home(tables.world.recs.as_slice(), named.method) {
        Ok(Some(at)) => {
            if !same_row(body, at) {
                return Ok(false);
            }
            match body_at(alloc, tables, ty, at) {
                Ok(Some(found)) => Ok(same_row(body, found)),
                Ok(None) => Ok(false),
                Err(error) => Err(error),
            }
        }
        Ok(None) => Ok(false),
        Err(error) => Err(error),
    }
}

/// Whether a MethodImpl row of an assembly has this body for a declaration with this slot.
fn says_so(
    alloc: Global,
    tables: &Tables<'_>,
    slots: &Slots,
    ty: &TypeExpr,
    body: RowAt,
    slot: Option<RowAt>,
    asm: u32,
    row: &MethodImplRow,
) -> Result<bool, NoMemory>
    requires tables { IsTables tables.now }
    requires slots { AreSlots tables.now.world.now.recs slots.now }
    ensures { IfOk result (λ is. is ≡ says_so tables.now.world.now.recs ty.now body slot asm row.now) }
{
    let Some(named) = use_at(tables, asm, row.body) else {
        return Ok(false);
    };
    if !names_body(alloc, tables, ty, body, named)? {
        return Ok(false);
    }
    match use_at(tables, asm, row.declaration) {
        Some(declaration) => declares(tables, slots, slot, declaration),
        None => Ok(false),
    }
}

/// Whether one of these MethodImpl rows, from 0, of an assembly has this body for a declaration with this slot.
fn any_says_so(
    alloc: Global,
    tables: &Tables<'_>,
    slots: &Slots,
    ty: &TypeExpr,
    body: RowAt,
    slot: Option<RowAt>,
    asm: u32,
    rec: &AsmRec,
    rows: &[u32],
) -> Result<bool, NoMemory>
    requires tables { IsTables tables.now }
    requires slots { AreSlots tables.now.world.now.recs slots.now }
    ensures { IfOk result (λ is. is ≡ list_any (says_so_at tables.now.world.now.recs ty.now body slot asm rec.now) rows.now) }
{
    for k in rows {
        let Some(row) = rec.method_impl.get(*k as usize) else {
            continue;
        };
        match says_so(alloc, tables, slots, ty, body, slot, asm, row) {
            Ok(true) => return Ok(true),
            Ok(false) => {}
            Err(error) => return Err(error),
        }
    }
    Ok(false)
}

/// Whether a MethodImpl row of the type in a row has this body for a declaration with this slot.
fn has_impl_at(
    alloc: Global,
    tables: &Tables<'_>,
    slots: &Slots,
    ty: &TypeExpr,
    body: RowAt,
    slot: Option<RowAt>,
    at: RowAt,
) -> Result<bool, NoMemory>
    requires tables { IsTables tables.now }
    requires slots { AreSlots tables.now.world.now.recs slots.now }
    ensures { IfOk result (λ has. has ≡ has_impl_at tables.now.world.now.recs ty.now body slot at) }
{
    let Some(of) = tables.rows_at(at.asm) else {
        return Ok(false);
    };
    let rec = of.scope.rec;
    let token = token_of(table::TYPE_DEF, at.row as usize)?;
    let rows = of.tables.impls.rows_with(token);
    let has = any_says_so(alloc, tables, slots, ty, body, slot, at.asm, rec, rows)?;
    Ok(has)
}

/// Whether a MethodImpl row of a type has this body for a declaration with this slot.
pub fn has_impl(
    alloc: Global,
    tables: &Tables<'_>,
    slots: &Slots,
    ty: &TypeExpr,
    body: RowAt,
    slot: Option<RowAt>,
) -> Result<bool, NoMemory>
    requires tables { IsTables tables.now }
    requires slots { AreSlots tables.now.world.now.recs slots.now }
    ensures { IfOk result (λ has. has ≡ has_impl tables.now.world.now.recs body slot ty.now) }
{
    match definition(tables.world.recs.as_slice(), ty) {
        Ok(Some(at)) => has_impl_at(alloc, tables, slots, ty, body, slot, at),
        Ok(None) => Ok(false),
        Err(error) => Err(error),
    }
}
