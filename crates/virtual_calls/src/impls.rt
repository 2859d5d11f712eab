//! MethodImpl rows (II.22.27).

ghost use Rattle.std.specs.Prelude.{◌≡◌, IfOk};
ghost use Rattle.rules.specs.link_rules.Members.{with_bases};
ghost use Rattle.rules.specs.link_rules.Cycles.{same_row};
ghost use Rattle.rules.specs.type_rules.Slots.{has_slot, method_row_at};
ghost use Rattle.rules.specs.type_rules.Dispatch.{have_method, is_instance_virtual, is_body, body_at, impl_body, impl_in, declares_slot, declares_in};
ghost use Rattle.type_tables.specs.Groups.{first_of};
ghost use Rattle.type_tables.specs.Tables.{IsTables};
ghost use Rattle.virtual_calls.specs.Slots.{AreSlots};
ghost use Rattle.virtual_calls.specs.Impls.{declares_by, stands_at, impl_by, impl_at, impl_in_at};

use crate::flags::{is_static, is_virtual};
use crate::nearest::{base_of, method_at, type_count};
use crate::slots::Slots;
use il_base::world_model::{AsmRec, MethodImplRow, MethodUse, TypeExpr, token_of};
use il_base::{NoMemory, table};
use rules::link_rules::RowAt;
use std::alloc::Global;
use type_tables::member_search::bases::definition;
use type_tables::member_search::own_types::open_parent;
use type_tables::methods::{method_home, type_of_method, use_at};
use type_tables::tables::Tables;

/// Which declarations of MethodImpl rows count.
#[derive(Clone, Copy)]
pub enum Declares<'a> {
    /// One with this slot.
    Slot(RowAt),
    /// One with this slot, in this interface instance, where the type has these arguments.
    In {
        slot: RowAt,
        instance: &'a TypeExpr,
        targs: &'a [TypeExpr],
    },
}

pub fn same_row(x: RowAt, y: RowAt) -> bool
    ensures { result ≡ same_row x y }
{
    x.asm == y.asm && x.row == y.row
}

/// Whether a method has this slot.
pub fn has_slot(tables: &Tables<'_>, slots: &Slots, slot: RowAt, at: RowAt) -> bool
    requires { AreSlots tables.now.world.now.recs slots.now }
    ensures { result ≡ has_slot tables.now.world.now.recs slot at }
{
    match slots.at(at) {
        Some(own) => same_row(own, slot),
        None => false,
    }
}

/// Whether a declaration has this slot.
pub fn declares_slot(
    tables: &Tables<'_>,
    slots: &Slots,
    slot: RowAt,
    declaration: &MethodUse,
) -> Result<bool, NoMemory>
    requires { AreSlots tables.now.world.now.recs slots.now }
    ensures { IfOk result (λ is. is ≡ declares_slot tables.now.world.now.recs slot declaration.now) }
{
    match method_home(tables.world.recs.as_slice(), declaration.method) {
        Ok(Some(at)) => Ok(has_slot(tables, slots, slot, at)),
        Ok(None) => Ok(false),
        Err(error) => Err(error),
    }
}

/// Whether a declaration has this slot, in this interface instance, where the type has these arguments.
fn declares_in(
    alloc: Global,
    tables: &Tables<'_>,
    slots: &Slots,
    slot: RowAt,
    instance: &TypeExpr,
    targs: &[TypeExpr],
    declaration: &MethodUse,
) -> Result<bool, NoMemory>
    requires { AreSlots tables.now.world.now.recs slots.now }
    ensures { IfOk result (λ is. is ≡ declares_in tables.now.world.now.recs slot instance.now targs.now declaration.now) }
{
    if !declares_slot(tables, slots, slot, declaration)? {
        return Ok(false);
    }
    let owner = declaration.owner.subst(alloc, targs, &[])?;
    Ok(owner.is_same(instance))
}

/// Whether a declaration counts.
fn declares_by(
    alloc: Global,
    tables: &Tables<'_>,
    slots: &Slots,
    declares: &Declares<'_>,
    declaration: &MethodUse,
) -> Result<bool, NoMemory>
    requires { AreSlots tables.now.world.now.recs slots.now }
    ensures { IfOk result (λ is. is ≡ declares_by tables.now.world.now.recs declares.now declaration.now) }
{
    match declares {
        Declares::Slot(slot) => declares_slot(tables, slots, *slot, declaration),
        Declares::In {
            slot,
            instance,
            targs,
        } => declares_in(alloc, tables, slots, *slot, instance, targs, declaration),
    }
}

/// Whether a type has this definition.
fn stands_at(tables: &Tables<'_>, owner: Option<RowAt>, ty: &TypeExpr) -> Result<bool, NoMemory>
    ensures { IfOk result (λ is. is ≡ stands_at tables.now.world.now.recs owner ty.now) }
{
    match definition(tables.world.recs.as_slice(), ty) {
        Ok(Some(at)) => match owner {
            Some(owner) => Ok(same_row(at, owner)),
            None => Ok(false),
        },
        Ok(None) => Ok(false),
        Err(error) => Err(error),
    }
}

/// Whether a type or one of its bases has a method.
fn have_method(
    alloc: Global,
    tables: &Tables<'_>,
    start: TypeExpr,
    at: RowAt,
) -> Result<bool, NoMemory>
    requires { IsTables tables.now }
    ensures { IfOk result (λ has. has ≡ have_method tables.now.world.now.recs (with_bases tables.now.world.now.recs start) at) }
{
    let owner = type_of_method(tables, at)?;
    let count = type_count(tables)?;
    let mut ty = start;
    for _ in 0..count {
        match stands_at(tables, owner, &ty) {
            Ok(true) => return Ok(true),
            Ok(false) => {}
            Err(error) => return Err(error),
        }
        match base_of(alloc, tables, &ty) {
            Ok(Some(base)) => ty = base,
            Ok(None) => return Ok(false),
            Err(error) => return Err(error),
        }
    }
    Ok(false)
}

/// Whether a method is there, virtual and not static.
fn is_instance_virtual(tables: &Tables<'_>, at: RowAt) -> bool
    ensures { result ≡ is_instance_virtual (method_row_at tables.now.world.now.recs at) }
{
    match method_at(tables, at) {
        Some(m) => is_virtual(m) && !is_static(m),
        None => false,
    }
}

/// Whether a method is a body for a class: virtual, not static, of the class or of one of its bases.
fn is_body(alloc: Global, tables: &Tables<'_>, ty: &TypeExpr, at: RowAt) -> Result<bool, NoMemory>
    requires { IsTables tables.now }
    ensures { IfOk result (λ is. is ≡ is_body tables.now.world.now.recs ty.now at) }
{
    if !is_instance_virtual(tables, at) {
        return Ok(false);
    }
    let start = open_parent(alloc, tables.world.recs.as_slice(), ty)?;
    have_method(alloc, tables, start, at)
}

pub fn body_at(
    alloc: Global,
    tables: &Tables<'_>,
    ty: &TypeExpr,
    at: RowAt,
) -> Result<Option<RowAt>, NoMemory>
    requires { IsTables tables.now }
    ensures { IfOk result (λ body. body ≡ body_at tables.now.world.now.recs ty.now at) }
{
    match is_body(alloc, tables, ty, at) {
        Ok(true) => Ok(Some(at)),
        Ok(false) => Ok(None),
        Err(error) => Err(error),
    }
}

/// The method that a row's body names, where the row's declaration counts.
fn impl_body(
    alloc: Global,
    tables: &Tables<'_>,
    slots: &Slots,
    declares: &Declares<'_>,
    ty: &TypeExpr,
    declaration: &MethodUse,
    body: &MethodUse,
) -> Result<Option<RowAt>, NoMemory>
    requires tables { IsTables tables.now }
    requires slots { AreSlots tables.now.world.now.recs slots.now }
    ensures { IfOk result (λ at. at ≡ impl_body tables.now.world.now.recs ty.now (declares_by tables.now.world.now.recs declares.now) declaration.now body.now) }
{
    if !declares_by(alloc, tables, slots, declares, declaration)? {
        return Ok(None);
    }
    match method_home(tables.world.recs.as_slice(), body.method) {
        Ok(Some(at)) => body_at(alloc, tables, ty, at),
        Ok(None) => Ok(None),
        Err(error) => Err(error),
    }
}

/// The body of a MethodImpl row of an assembly, where its declaration counts.
fn impl_by(
    alloc: Global,
    tables: &Tables<'_>,
    slots: &Slots,
    declares: &Declares<'_>,
    ty: &TypeExpr,
    asm: u32,
    row: &MethodImplRow,
) -> Result<Option<RowAt>, NoMemory>
    requires tables { IsTables tables.now }
    requires slots { AreSlots tables.now.world.now.recs slots.now }
    ensures { IfOk result (λ at. at ≡ impl_by tables.now.world.now.recs ty.now (declares_by tables.now.world.now.recs declares.now) asm row.now) }
{
    let Some(declaration) = use_at(tables, asm, row.declaration) else {
        return Ok(None);
    };
    let Some(body) = use_at(tables, asm, row.body) else {
        return Ok(None);
    };
    impl_body(alloc, tables, slots, declares, ty, declaration, body)
}

/// What the first of these MethodImpl rows, from 0, of an assembly gives that gives a body.
fn first_of(
    alloc: Global,
    tables: &Tables<'_>,
    slots: &Slots,
    declares: &Declares<'_>,
    ty: &TypeExpr,
    asm: u32,
    rec: &AsmRec,
    rows: &[u32],
) -> Result<Option<RowAt>, NoMemory>
    requires tables { IsTables tables.now }
    requires slots { AreSlots tables.now.world.now.recs slots.now }
    ensures { IfOk result (λ at. at ≡ first_of (impl_at tables.now.world.now.recs ty.now (declares_by tables.now.world.now.recs declares.now) asm rec.now) rows.now) }
{
    for k in rows {
        let Some(row) = rec.method_impl.get(*k as usize) else {
            continue;
        };
        match impl_by(alloc, tables, slots, declares, ty, asm, row) {
            Ok(Some(at)) => return Ok(Some(at)),
            Ok(None) => {}
            Err(error) => return Err(error),
        }
    }
    Ok(None)
}

/// The body of the first MethodImpl row of the type in a row whose declaration counts.
fn impl_in_at(
    alloc: Global,
    tables: &Tables<'_>,
    slots: &Slots,
    declares: &Declares<'_>,
    ty: &TypeExpr,
    at: RowAt,
) -> Result<Option<RowAt>, NoMemory>
    requires tables { IsTables tables.now }
    requires slots { AreSlots tables.now.world.now.recs slots.now }
    ensures { IfOk result (λ body. body ≡ impl_in_at tables.now.world.now.recs ty.now (declares_by tables.now.world.now.recs declares.now) at) }
{
    let Some(of) = tables.rows_at(at.asm) else {
        return Ok(None);
    };
    let rec = of.scope.rec;
    let Some(_row) = rec.type_def.get(at.row as usize) else {
        return Ok(None);
    };
    let token = token_of(table::TYPE_DEF, at.row as usize)?;
    let rows = of.tables.impls.rows_with(token);
    let body = first_of(alloc, tables, slots, declares, ty, at.asm, rec, rows)?;
    Ok(body)
}

/// The body of the first MethodImpl row of a type whose declaration counts.
#[tactic(auto, unfolding(rules::specs::type_rules::Dispatch::impl_in))]
pub fn impl_in(
    alloc: Global,
    tables: &Tables<'_>,
    slots: &Slots,
    declares: &Declares<'_>,
    ty: &TypeExpr,
) -> Result<Option<RowAt>, NoMemory>
    requires tables { IsTables tables.now }
    requires slots { AreSlots tables.now.world.now.recs slots.now }
    ensures { IfOk result (λ body. body ≡ impl_in tables.now.world.now.recs (declares_by tables.now.world.now.recs declares.now) ty.now) }
{
    match definition(tables.world.recs.as_slice(), ty) {
        Ok(Some(at)) => impl_in_at(alloc, tables, slots, declares, ty, at),
        Ok(None) => Ok(None),
        Err(error) => Err(error),
    }
}
