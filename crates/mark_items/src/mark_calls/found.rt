//! The methods that the search for an interface slot finds first (II.12.2).

ghost use Rattle.std.specs.Prelude.{◌≡◌, ◌++◌, ◌&&◌, Some, IfOk, OnOk};
ghost use Rattle.std.specs.List.{flat_map, list_any};
ghost use Rattle.rules.specs.link_rules.Members.{with_bases};
ghost use Rattle.rules.specs.link_rules.Cycles.{listed, only_interface};
ghost use Rattle.rules.specs.type_rules.Slots.{open_type};
ghost use Rattle.rules.specs.type_rules.Dispatch.{from_choice, in_interface};
ghost use Rattle.rules.specs.mark_rules.Types.{impl_type};
ghost use Rattle.rules.specs.mark_rules.Calls.{is_own_slot, found_for, is_base_of, row_class, searched, first_found};
ghost use Rattle.mark_parts.specs.mark_tables.Assemblies.{all_of, IsMarker};
ghost use Rattle.virtual_calls.specs.Slots.{AreSlots};
ghost use Rattle.virtual_calls.specs.Interfaces.{told};
ghost use Rattle.mark_items.specs.mark_calls.Found.{found_with, is_home, found_by};

use crate::mark_calls::class_calls::{is_own_slot, open_type};
use il_base::world_model::{AsmRec, Known, MethodDefRow, TypeExpr, index_in};
use il_base::{NoMemory, table};
use mark_parts::mark_tables::marker::Marker;
use rules::link_rules::{MethodType, RowAt};
use std::alloc::Global;
use type_tables::member_search::bases::{definition, is_interface};
use type_tables::methods::{method_type_at, type_of_method};
use type_tables::subtypes::rounds::implied;
use virtual_calls::dispatch::in_interface;
use virtual_calls::impls::same_row;
use virtual_calls::interface_slots::{Choice, from_choice};
use virtual_calls::nearest::{base_of, method_at, type_count};
use virtual_calls::slots::Slots;

/// Whether a type has a definition.
fn is_home(all: &[AsmRec], c: RowAt, ty: &TypeExpr) -> Result<bool, NoMemory>
    ensures { IfOk result (λ is. is ≡ is_home all.now c ty.now) }
{
    match definition(all, ty) {
        Ok(Some(at)) => Ok(same_row(c, at)),
        Ok(None) => Ok(false),
        Err(error) => Err(error),
    }
}

/// Whether a type definition is another one or one of its bases.
fn is_among_bases(
    alloc: Global,
    marker: &Marker<'_>,
    c: RowAt,
    start: TypeExpr,
) -> Result<bool, NoMemory>
    requires { IsMarker marker.now }
    ensures { IfOk result (λ is. is ≡ list_any (is_home (all_of marker.now) c) (with_bases (all_of marker.now) start)) }
{
    let count = type_count(&marker.tables)?;
    let all = marker.tables.world.recs.as_slice();
    let mut ty = start;
    for _ in 0..count {
        match is_home(all, c, &ty) {
            Ok(true) => return Ok(true),
            Ok(false) => {}
            Err(error) => return Err(error),
        }
        match base_of(alloc, &marker.tables, &ty) {
            Ok(Some(base)) => ty = base,
            Ok(None) => return Ok(false),
            Err(error) => return Err(error),
        }
    }
    Ok(false)
}

/// Whether a type definition is another one or one of its bases.
pub(crate) fn is_base_of(
    alloc: Global,
    marker: &Marker<'_>,
    c: RowAt,
    t: RowAt,
) -> Result<bool, NoMemory>
    requires { IsMarker marker.now }
    ensures { IfOk result (λ is. is ≡ is_base_of (all_of marker.now) c t) }
{
    let start = open_type(marker.tables.world.recs.as_slice(), t)?;
    is_among_bases(alloc, marker, c, start)
}

/// Adds the method that a type, or the nearest of its bases, has for a slot in an interface instance.
fn add_from_choice(
    alloc: Global,
    marker: &Marker<'_>,
    slots: &Slots,
    b: RowAt,
    m: &MethodDefRow,
    signature: &Option<Known<MethodType>>,
    choice: &Choice,
    found: &mut Vec<RowAt>,
) -> Result<(), NoMemory>
    requires marker { IsMarker marker.now }
    requires slots { AreSlots (all_of marker.now) slots.now }
    ensures { OnOk result (found.new.items ≡ found.old.items ++ listed (from_choice (all_of marker.now) b m.now signature.now (told choice.now))) }
{
    match from_choice(alloc, &marker.tables, slots, b, m, signature, choice) {
        Ok(Some(at)) => {
            found.push(at)?;
            Ok(())
        }
        Ok(None) => Ok(()),
        Err(error) => Err(error),
    }
}

/// Adds the methods that the search finds for an instance of the slot's interface.
fn add_with(
    alloc: Global,
    marker: &Marker<'_>,
    slots: &Slots,
    b: RowAt,
    c: &TypeExpr,
    owner: RowAt,
    m: &MethodDefRow,
    signature: &Option<Known<MethodType>>,
    i: &TypeExpr,
    found: &mut Vec<RowAt>,
) -> Result<(), NoMemory>
    requires marker { IsMarker marker.now }
    requires slots { AreSlots (all_of marker.now) slots.now }
    ensures { OnOk result (found.new.items ≡ found.old.items ++ found_with (all_of marker.now) b c.now owner m.now signature.now i.now) }
{
    let is = is_home(marker.tables.world.recs.as_slice(), owner, i)?;
    if !is {
        return Ok(());
    }
    let of = c.copy(alloc)?;
    let instance = i.copy(alloc)?;
    let choice = Choice { of, instance };
    add_from_choice(alloc, marker, slots, b, m, signature, &choice, found)
}

/// Adds the methods that the search finds for these instances.
fn add_all_with(
    alloc: Global,
    marker: &Marker<'_>,
    slots: &Slots,
    b: RowAt,
    c: &TypeExpr,
    owner: RowAt,
    m: &MethodDefRow,
    signature: &Option<Known<MethodType>>,
    instances: &[TypeExpr],
    found: &mut Vec<RowAt>,
) -> Result<(), NoMemory>
    requires marker { IsMarker marker.now }
    requires slots { AreSlots (all_of marker.now) slots.now }
    ensures { OnOk result (found.new.items ≡ found.old.items ++ flat_map (found_with (all_of marker.now) b c.now owner m.now signature.now) instances.now) }
{
    for i in instances {
        add_with(alloc, marker, slots, b, c, owner, m, signature, i, found)?;
    }
    Ok(())
}

/// Adds the methods that the search finds from a type for each instance that an interface row is or implies, for a slot of
/// this owner.
fn add_by(
    alloc: Global,
    marker: &Marker<'_>,
    slots: &Slots,
    b: RowAt,
    c: &TypeExpr,
    owner: RowAt,
    m: &MethodDefRow,
    e: &TypeExpr,
    found: &mut Vec<RowAt>,
) -> Result<(), NoMemory>
    requires marker { IsMarker marker.now }
    requires slots { AreSlots (all_of marker.now) slots.now }
    ensures { OnOk result (found.new.items ≡ found.old.items ++ found_by (all_of marker.now) b c.now owner m.now e.now) }
{
    let signature = method_type_at(alloc, &marker.tables, b)?;
    let instances = implied(alloc, &marker.tables, e)?;
    add_all_with(
        alloc,
        marker,
        slots,
        b,
        c,
        owner,
        m,
        &signature,
        instances.as_slice(),
        found,
    )
}

/// Adds the methods that the search finds from a type for each instance that an interface row is or implies.
#[tactic(auto, using(crate::proofs::lemmas::mark_calls::Lists::none_more))]
fn add_for(
    alloc: Global,
    marker: &Marker<'_>,
    slots: &Slots,
    b: RowAt,
    c: &TypeExpr,
    e: &TypeExpr,
    found: &mut Vec<RowAt>,
) -> Result<(), NoMemory>
    requires marker { IsMarker marker.now }
    requires slots { AreSlots (all_of marker.now) slots.now }
    ensures { OnOk result (found.new.items ≡ found.old.items ++ found_for (all_of marker.now) b c.now e.now) }
{
    let Some(owner) = type_of_method(&marker.tables, b)? else {
        return Ok(());
    };
    let Some(m) = method_at(&marker.tables, b) else {
        return Ok(());
    };
    add_by(alloc, marker, slots, b, c, owner, m, e, found)
}

/// Adds the methods that the search finds for an interface row that names this type, from the row's class.
#[tactic(auto, using(crate::proofs::lemmas::mark_calls::Lists::none_more))]
fn add_named(
    alloc: Global,
    marker: &Marker<'_>,
    slots: &Slots,
    b: RowAt,
    c: RowAt,
    e: &TypeExpr,
    found: &mut Vec<RowAt>,
) -> Result<(), NoMemory>
    requires marker { IsMarker marker.now }
    requires slots { AreSlots (all_of marker.now) slots.now }
    ensures { OnOk result (found.new.items ≡ found.old.items ++ flat_map (found_for (all_of marker.now) b (open_type (all_of marker.now) c)) (only_interface (all_of marker.now) (Some e.now))) }
{
    let all = marker.tables.world.recs.as_slice();
    let is = is_interface(all, e)?;
    if !is {
        return Ok(());
    }
    let open = open_type(all, c)?;
    add_for(alloc, marker, slots, b, &open, e, found)
}

/// Adds the methods that the search finds for an interface row, from the row's class.
fn add_row(
    alloc: Global,
    marker: &Marker<'_>,
    slots: &Slots,
    b: RowAt,
    r: RowAt,
    c: RowAt,
    found: &mut Vec<RowAt>,
) -> Result<(), NoMemory>
    requires marker { IsMarker marker.now }
    requires slots { AreSlots (all_of marker.now) slots.now }
    ensures { OnOk result (found.new.items ≡ found.old.items ++ flat_map (found_for (all_of marker.now) b (open_type (all_of marker.now) c)) (only_interface (all_of marker.now) (impl_type (all_of marker.now) r))) }
{
    let Some(asm) = marker.assembly_at(r.asm) else {
        return Ok(());
    };
    let Some(row) = asm.scope.rec.interface_impl.get(r.row as usize) else {
        return Ok(());
    };
    match asm.scope.token_type(row.interface) {
        Ok(e) => add_named(alloc, marker, slots, b, c, e, found),
        Err(_) => Ok(()),
    }
}

/// Adds the methods that the search finds for an interface row of a type or of one of its bases.
fn add_searched(
    alloc: Global,
    marker: &Marker<'_>,
    slots: &Slots,
    t: RowAt,
    b: RowAt,
    r: RowAt,
    c: RowAt,
    found: &mut Vec<RowAt>,
) -> Result<(), NoMemory>
    requires marker { IsMarker marker.now }
    requires slots { AreSlots (all_of marker.now) slots.now }
    ensures { OnOk result (found.new.items ≡ found.old.items ++ searched (all_of marker.now) t b r c) }
{
    let is = is_base_of(alloc, marker, c, t)?;
    if is {
        return add_row(alloc, marker, slots, b, r, c, found);
    }
    Ok(())
}

/// The class of an interface row, by its assembly and row.
pub(crate) fn row_class(all: &[AsmRec], r: RowAt) -> Option<RowAt>
    ensures { result ≡ row_class all.now r }
{
    let rec = all.get(r.asm as usize)?;
    let row = rec.interface_impl.get(r.row as usize)?;
    let class = index_in(table::TYPE_DEF, row.class)?;
    Some(RowAt {
        asm: r.asm,
        row: class,
    })
}

/// Whether a method is its own slot, and one of an interface.
fn is_interface_slot(marker: &Marker<'_>, slots: &Slots, b: RowAt) -> Result<bool, NoMemory>
    requires marker { IsMarker marker.now }
    requires slots { AreSlots (all_of marker.now) slots.now }
    ensures { IfOk result (λ is. is ≡ (is_own_slot (all_of marker.now) b && in_interface (all_of marker.now) b)) }
{
    if !is_own_slot(marker, slots, b) {
        return Ok(false);
    }
    in_interface(&marker.tables, b)
}

/// The methods that the search for an interface slot finds first, for an interface row of a type or of one of its bases, and
/// each instance of the slot's interface that the row is or implies.
#[tactic(auto, unfolding(rules::specs::mark_rules::Calls::first_found), using(crate::proofs::lemmas::mark_calls::Lists::none_more))]
pub fn first_found(
    alloc: Global,
    marker: &Marker<'_>,
    slots: &Slots,
    t: RowAt,
    b: RowAt,
    r: RowAt,
) -> Result<Vec<RowAt>, NoMemory>
    requires marker { IsMarker marker.now }
    requires slots { AreSlots (all_of marker.now) slots.now }
    ensures { IfOk result (λ found. found.items ≡ first_found (all_of marker.now) t b r) }
{
    let mut found = Vec::new(alloc);
    let is = is_interface_slot(marker, slots, b)?;
    if !is {
        return Ok(found);
    }
    match row_class(marker.tables.world.recs.as_slice(), r) {
        Some(c) => {
            add_searched(alloc, marker, slots, t, b, r, c, &mut found)?;
            Ok(found)
        }
        None => Ok(found),
    }
}
