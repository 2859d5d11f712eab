//! What a type has for a class slot (II.10.3.4).

ghost use Rattle.std.specs.Prelude.{◌≡◌, ℕ, IfOk};
ghost use Rattle.std.specs.List.{range_with_len};
ghost use Rattle.rules.specs.link_rules.Types.{at_row};
ghost use Rattle.rules.specs.type_rules.Slots.{has_slot};
ghost use Rattle.rules.specs.type_rules.Dispatch.{place_that, find_row_in_run, slot_in, class_method_in, class_dispatch};
ghost use Rattle.type_tables.specs.Tables.{IsTables};
ghost use Rattle.virtual_calls.specs.Slots.{AreSlots, slot_in_at};

use crate::impls::{Declares, has_slot, impl_in};
use crate::nearest::{base_of, type_count};
use crate::slots::Slots;
use il_base::NoMemory;
use il_base::world_model::{AsmRec, TypeDefRow, TypeExpr};
use rules::link_rules::RowAt;
use std::alloc::Global;
use type_tables::member_search::bases::definition;
use type_tables::member_search::counted::sum;
use type_tables::member_search::linked::assembly_at;
use type_tables::tables::Tables;

/// The first of so many methods of an assembly from a row on, from 0, that has a slot.
fn first_with_slot(
    tables: &Tables<'_>,
    slots: &Slots,
    slot: RowAt,
    asm: u32,
    start: u32,
    count: usize,
) -> Result<Option<u32>, NoMemory>
    requires { AreSlots tables.now.world.now.recs slots.now }
    ensures { IfOk result (λ k. k ≡ place_that (λ (j : ℕ). has_slot tables.now.world.now.recs slot (at_row asm j)) (range_with_len start count)) }
{
    for i in 0..count {
        let row = sum(start, i)?;
        if has_slot(tables, slots, slot, RowAt { asm, row }) {
            return Ok(Some(row));
        }
    }
    Ok(None)
}

/// The first method in the run of a type that has a slot.
fn slot_in_run(
    tables: &Tables<'_>,
    slots: &Slots,
    slot: RowAt,
    asm: u32,
    rec: &AsmRec,
    t: &TypeDefRow,
) -> Result<Option<u32>, NoMemory>
    requires { AreSlots tables.now.world.now.recs slots.now }
    ensures { IfOk result (λ k. k ≡ find_row_in_run (λ (j : ℕ). has_slot tables.now.world.now.recs slot (at_row asm j)) t.now.method_list_first t.now.method_list_end rec.now.method_def) }
{
    let start = t.method_list_first.saturating_sub(1);
    let rest = rec.method_def.len().saturating_sub(start as usize);
    let long = t.method_list_end.saturating_sub(t.method_list_first);
    let k = first_with_slot(tables, slots, slot, asm, start, rest.min(long as usize))?;
    Ok(k)
}

/// The first method with a slot of the type in a row.
fn slot_in_at(
    tables: &Tables<'_>,
    slots: &Slots,
    slot: RowAt,
    at: RowAt,
) -> Result<Option<RowAt>, NoMemory>
    requires { AreSlots tables.now.world.now.recs slots.now }
    ensures { IfOk result (λ found. found ≡ slot_in_at tables.now.world.now.recs slot at) }
{
    let Some(rec) = assembly_at(tables.world.recs.as_slice(), at.asm) else {
        return Ok(None);
    };
    let Some(t) = rec.type_def.get(at.row as usize) else {
        return Ok(None);
    };
    match slot_in_run(tables, slots, slot, at.asm, rec, t) {
        Ok(Some(row)) => Ok(Some(RowAt { asm: at.asm, row })),
        Ok(None) => Ok(None),
        Err(error) => Err(error),
    }
}

/// The first method of a type that has a slot.
#[tactic(auto, unfolding(rules::specs::type_rules::Dispatch::slot_in))]
fn slot_in(
    tables: &Tables<'_>,
    slots: &Slots,
    slot: RowAt,
    ty: &TypeExpr,
) -> Result<Option<RowAt>, NoMemory>
    requires { AreSlots tables.now.world.now.recs slots.now }
    ensures { IfOk result (λ found. found ≡ slot_in tables.now.world.now.recs slot ty.now) }
{
    match definition(tables.world.recs.as_slice(), ty) {
        Ok(Some(at)) => slot_in_at(tables, slots, slot, at),
        Ok(None) => Ok(None),
        Err(error) => Err(error),
    }
}

/// What a type itself has for a class slot: the body of a MethodImpl row, and else its method.
fn class_method_in(
    alloc: Global,
    tables: &Tables<'_>,
    slots: &Slots,
    slot: RowAt,
    ty: &TypeExpr,
) -> Result<Option<RowAt>, NoMemory>
    requires tables { IsTables tables.now }
    requires slots { AreSlots tables.now.world.now.recs slots.now }
    ensures { IfOk result (λ found. found ≡ class_method_in tables.now.world.now.recs slot ty.now) }
{
    match impl_in(alloc, tables, slots, &Declares::Slot(slot), ty) {
        Ok(Some(at)) => Ok(Some(at)),
        Ok(None) => slot_in(tables, slots, slot, ty),
        Err(error) => Err(error),
    }
}

/// What a type has for a class slot: that of the nearest among it and its bases.
#[tactic(auto, unfolding(rules::specs::type_rules::Dispatch::class_dispatch))]
pub fn class_dispatch(
    alloc: Global,
    tables: &Tables<'_>,
    slots: &Slots,
    t: &TypeExpr,
    slot: RowAt,
) -> Result<Option<RowAt>, NoMemory>
    requires tables { IsTables tables.now }
    requires slots { AreSlots tables.now.world.now.recs slots.now }
    ensures { IfOk result (λ found. found ≡ class_dispatch tables.now.world.now.recs t.now slot) }
{
    let count = type_count(tables)?;
    let mut ty = t.copy(alloc)?;
    for _ in 0..count {
        match class_method_in(alloc, tables, slots, slot, &ty) {
            Ok(Some(at)) => return Ok(Some(at)),
            Ok(None) => {}
            Err(error) => return Err(error),
        }
        match base_of(alloc, tables, &ty) {
            Ok(Some(base)) => ty = base,
            Ok(None) => return Ok(None),
            Err(error) => return Err(error),
        }
    }
    Ok(None)
}
