//! The virtual methods of a type, their slots, and the slots that its MethodImpl rows declare (II.22.27).

ghost use Rattle.std.specs.Prelude.{◌≡◌, ◌++◌, [], slice_get, Some, IfOk, OnOk};
ghost use Rattle.std.specs.List.{flat_map};
ghost use Rattle.std.specs.Option.{option_map_or};
ghost use Rattle.base_laws.specs.known_laws.Known.{slot_list, with_slot, slot_and_own, use_slot, declared_slot, declared_slots, own_slots};
ghost use Rattle.mark_parts.specs.mark_tables.Assemblies.{recs_of, place_of, rec_of, all_of, IsAssembly, IsMarker};
ghost use Rattle.virtual_calls.specs.Slots.{AreSlots};

use il_base::world_model::{AsmRec, MethodImplRow, MethodUse, token_of};
use il_base::{NoMemory, table};
use mark_parts::mark_rows::members::methods_of_type;
use mark_parts::mark_tables::assembly::Assembly;
use mark_parts::mark_tables::marker::Marker;
use rules::link_rules::RowAt;
use std::alloc::Global;
use type_tables::methods::{method_home, use_at};
use virtual_calls::impls::same_row;
use virtual_calls::slots::{Slots, slot_of_method};

/// Adds the slot of a method, if it has one.
fn add_slot(
    marker: &Marker<'_>,
    slots: &Slots,
    at: RowAt,
    found: &mut Vec<RowAt>,
) -> Result<(), NoMemory>
    requires { AreSlots (all_of marker.now) slots.now }
    ensures { OnOk result (found.new.items ≡ found.old.items ++ slot_list (all_of marker.now) at) }
{
    match slot_of_method(&marker.tables, slots, at) {
        Some(slot) => {
            found.push(slot)?;
            Ok(())
        }
        None => Ok(()),
    }
}

/// Adds a slot, and the method that has it, where that is another.
fn add_with_slot(at: RowAt, slot: RowAt, found: &mut Vec<RowAt>) -> Result<(), NoMemory>
    ensures { OnOk result (found.new.items ≡ found.old.items ++ with_slot at slot) }
{
    found.push(slot)?;
    if !same_row(at, slot) {
        found.push(at)?;
    }
    Ok(())
}

/// Adds the slot of a virtual method, and the method itself.
fn add_method(
    marker: &Marker<'_>,
    slots: &Slots,
    at: RowAt,
    found: &mut Vec<RowAt>,
) -> Result<(), NoMemory>
    requires { AreSlots (all_of marker.now) slots.now }
    ensures { OnOk result (found.new.items ≡ found.old.items ++ slot_and_own (all_of marker.now) at) }
{
    match slot_of_method(&marker.tables, slots, at) {
        Some(slot) => add_with_slot(at, slot, found),
        None => Ok(()),
    }
}

/// Adds those of these methods that are virtual, with their slots.
fn add_methods(
    marker: &Marker<'_>,
    slots: &Slots,
    methods: &[RowAt],
    found: &mut Vec<RowAt>,
) -> Result<(), NoMemory>
    requires { AreSlots (all_of marker.now) slots.now }
    ensures { OnOk result (found.new.items ≡ found.old.items ++ flat_map (slot_and_own (all_of marker.now)) methods.now) }
{
    for at in methods {
        add_method(marker, slots, *at, found)?;
    }
    Ok(())
}

/// Adds the slot of the method that a row names.
fn add_used(
    marker: &Marker<'_>,
    slots: &Slots,
    used: &MethodUse,
    found: &mut Vec<RowAt>,
) -> Result<(), NoMemory>
    requires { AreSlots (all_of marker.now) slots.now }
    ensures { OnOk result (found.new.items ≡ found.old.items ++ use_slot (all_of marker.now) used.now) }
{
    match method_home(marker.tables.world.recs.as_slice(), used.method) {
        Ok(Some(at)) => add_slot(marker, slots, at, found),
        Ok(None) => Ok(()),
        Err(error) => Err(error),
    }
}

/// Adds the slot that a row declares.
fn add_declared(
    marker: &Marker<'_>,
    slots: &Slots,
    asm: u32,
    rec: &AsmRec,
    row: &MethodImplRow,
    found: &mut Vec<RowAt>,
) -> Result<(), NoMemory>
    requires marker { IsMarker marker.now }
    requires slots { AreSlots (all_of marker.now) slots.now }
    requires here { slice_get (all_of marker.now) asm ≡ Some rec.now }
    ensures { OnOk result (found.new.items ≡ found.old.items ++ declared_slot (all_of marker.now) asm rec.now row.now) }
{
    match use_at(&marker.tables, asm, row.declaration) {
        Some(used) => add_used(marker, slots, used, found),
        None => Ok(()),
    }
}

/// Adds the slot that a row of an assembly, by its number from 0, declares.
fn add_declared_at(
    marker: &Marker<'_>,
    slots: &Slots,
    asm: u32,
    rec: &AsmRec,
    k: u32,
    found: &mut Vec<RowAt>,
) -> Result<(), NoMemory>
    requires marker { IsMarker marker.now }
    requires slots { AreSlots (all_of marker.now) slots.now }
    requires here { slice_get (all_of marker.now) asm ≡ Some rec.now }
    ensures { OnOk result (found.new.items ≡ found.old.items ++ option_map_or (declared_slot (all_of marker.now) asm rec.now) (slice_get rec.now.method_impl k) []) }
{
    match rec.method_impl.get(k as usize) {
        Some(row) => add_declared(marker, slots, asm, rec, row, found),
        None => Ok(()),
    }
}

/// Adds the slots that these rows of an assembly declare.
fn add_all_declared(
    marker: &Marker<'_>,
    slots: &Slots,
    asm: u32,
    rec: &AsmRec,
    ks: &[u32],
    found: &mut Vec<RowAt>,
) -> Result<(), NoMemory>
    requires marker { IsMarker marker.now }
    requires slots { AreSlots (all_of marker.now) slots.now }
    requires here { slice_get (all_of marker.now) asm ≡ Some rec.now }
    ensures { OnOk result (found.new.items ≡ found.old.items ++ flat_map (λ k. option_map_or (declared_slot (all_of marker.now) asm rec.now) (slice_get rec.now.method_impl k) []) ks.now) }
{
    for k in ks {
        add_declared_at(marker, slots, asm, rec, *k, found)?;
    }
    Ok(())
}

/// Adds the slots that the MethodImpl rows of a type declare.
fn add_declared_slots(
    marker: &Marker<'_>,
    slots: &Slots,
    c: RowAt,
    found: &mut Vec<RowAt>,
) -> Result<(), NoMemory>
    requires marker { IsMarker marker.now }
    requires slots { AreSlots (all_of marker.now) slots.now }
    ensures { OnOk result (found.new.items ≡ found.old.items ++ declared_slots (all_of marker.now) c) }
{
    let Some(asm) = marker.assembly_at(c.asm) else {
        return Ok(());
    };
    let token = token_of(table::TYPE_DEF, c.row as usize)?;
    let ks = asm.of_types.impls.rows_with(token);
    add_all_declared(marker, slots, c.asm, asm.scope.rec, ks, found)?;
    Ok(())
}

/// A type's virtual methods, their slots, and the slots that its MethodImpl rows declare.
pub fn own_slots(
    alloc: Global,
    marker: &Marker<'_>,
    slots: &Slots,
    c: RowAt,
) -> Result<Vec<RowAt>, NoMemory>
    requires marker { IsMarker marker.now }
    requires slots { AreSlots (all_of marker.now) slots.now }
    ensures { IfOk result (λ found. found.items ≡ own_slots (all_of marker.now) c) }
{
    let methods = methods_of_type(alloc, marker, c)?;
    let mut found = Vec::new(alloc);
    add_methods(marker, slots, methods.as_slice(), &mut found)?;
    add_declared_slots(marker, slots, c, &mut found)?;
    Ok(found)
}
