//! The methods that a class slot may run for instantiated types (II.10.3), and whether a type must have a method for a slot.

ghost use Rattle.std.specs.Prelude.{◌≡◌, ◌++◌, IfOk, OnOk};
ghost use Rattle.std.specs.List.{list_any};
ghost use Rattle.rules.specs.link_rules.Cycles.{listed};
ghost use Rattle.rules.specs.type_rules.Slots.{open_type, method_row_at};
ghost use Rattle.rules.specs.type_rules.Dispatch.{class_dispatch};
ghost use Rattle.rules.specs.type_rules.Rows.{type_row_at};
ghost use Rattle.rules.specs.mark_rules.Calls.{is_own_slot, class_answer, class_runs, is_concrete, is_abstract_method, answers_abstract};
ghost use Rattle.mark_parts.specs.mark_tables.Assemblies.{all_of, IsMarker};
ghost use Rattle.virtual_calls.specs.Slots.{AreSlots};

use il_base::world_model::{AsmRec, MethodDefRow, TypeDefRow, TypeExpr};
use il_base::{NoMemory, has_flag, has_type_flag, method_flags, type_flags};
use mark_parts::mark_facts::facts::Facts;
use mark_parts::mark_facts::kinds::Kind;
use mark_parts::mark_facts::rows::type_at;
use mark_parts::mark_tables::marker::Marker;
use rules::link_rules::RowAt;
use std::alloc::Global;
use virtual_calls::class_slots::class_dispatch;
use virtual_calls::dispatch::in_interface;
use virtual_calls::impls::same_row;
use virtual_calls::nearest::method_at;
use virtual_calls::slots::{Slots, slot_of_method};

/// Whether a method is its own slot.
pub(crate) fn is_own_slot(marker: &Marker<'_>, slots: &Slots, b: RowAt) -> bool
    requires { AreSlots (all_of marker.now) slots.now }
    ensures { result ≡ is_own_slot (all_of marker.now) b }
{
    match slot_of_method(&marker.tables, slots, b) {
        Some(own) => same_row(b, own),
        None => false,
    }
}

/// A type definition with its own parameters left open.
pub(crate) fn open_type(all: &[AsmRec], at: RowAt) -> Result<TypeExpr, NoMemory>
    ensures { IfOk result (λ ty. ty ≡ open_type all.now at) }
{
    let id = type_at(all, at)?;
    Ok(TypeExpr::Def(id))
}

/// The method with which a type answers a slot.
fn dispatched(
    alloc: Global,
    marker: &Marker<'_>,
    slots: &Slots,
    t: RowAt,
    b: RowAt,
) -> Result<Option<RowAt>, NoMemory>
    requires marker { IsMarker marker.now }
    requires slots { AreSlots (all_of marker.now) slots.now }
    ensures { IfOk result (λ found. found ≡ class_dispatch (all_of marker.now) (open_type (all_of marker.now) t) b) }
{
    let open = open_type(marker.tables.world.recs.as_slice(), t)?;
    let found = class_dispatch(alloc, &marker.tables, slots, &open, b)?;
    Ok(found)
}

/// The method with which a type, its parameters left open, answers a class slot; None for a method that is no class slot.
#[tactic(auto, unfolding(rules::specs::mark_rules::Calls::class_answer))]
fn class_answer(
    alloc: Global,
    marker: &Marker<'_>,
    slots: &Slots,
    t: RowAt,
    b: RowAt,
) -> Result<Option<RowAt>, NoMemory>
    requires marker { IsMarker marker.now }
    requires slots { AreSlots (all_of marker.now) slots.now }
    ensures { IfOk result (λ found. listed found ≡ class_answer (all_of marker.now) t b) }
{
    if !is_own_slot(marker, slots, b) {
        return Ok(None);
    }
    if in_interface(&marker.tables, b)? {
        return Ok(None);
    }
    dispatched(alloc, marker, slots, t, b)
}

/// Marks the method that a class slot runs for an instantiated type.
#[tactic(auto, unfolding(rules::specs::mark_rules::Calls::class_runs))]
pub fn add_class_runs(
    alloc: Global,
    marker: &Marker<'_>,
    slots: &Slots,
    t: RowAt,
    b: RowAt,
    facts: &mut Facts,
) -> Result<(), NoMemory>
    requires marker { IsMarker marker.now }
    requires slots { AreSlots (all_of marker.now) slots.now }
    ensures { OnOk result (facts.new ≡ facts.old ++ class_runs (all_of marker.now) t b) }
{
    match class_answer(alloc, marker, slots, t, b) {
        Ok(Some(at)) => facts.mark_row(marker.tables.world.recs.as_slice(), Kind::Method, at),
        Ok(None) => Ok(()),
        Err(error) => Err(error),
    }
}

/// Whether a type is neither abstract nor an interface (II.23.1.15).
fn is_concrete(t: &TypeDefRow) -> bool
    ensures { result ≡ is_concrete t.now }
{
    !has_type_flag(t.flags, type_flags::ABSTRACT) && !has_type_flag(t.flags, type_flags::INTERFACE)
}

/// Whether a method is abstract, by its flags (II.23.1.10).
fn is_abstract_method(m: &MethodDefRow) -> bool
    ensures { result ≡ is_abstract_method m.now }
{
    has_flag(m.flags, method_flags::ABSTRACT)
}

/// Whether a type is there, and neither abstract nor an interface.
fn is_concrete_at(all: &[AsmRec], at: RowAt) -> bool
    ensures { result ≡ list_any is_concrete (listed (type_row_at all.now at)) }
{
    match all.get(at.asm as usize) {
        None => false,
        Some(rec) => match rec.type_def.get(at.row as usize) {
            None => false,
            Some(t) => is_concrete(t),
        },
    }
}

/// Whether a method is there, and abstract.
fn is_abstract_at(marker: &Marker<'_>, at: RowAt) -> bool
    ensures { result ≡ list_any is_abstract_method (listed (method_row_at (all_of marker.now) at)) }
{
    match method_at(&marker.tables, at) {
        Some(m) => is_abstract_method(m),
        None => false,
    }
}

/// Whether a type has to have a method for a slot: the slot is abstract, and the type is neither abstract nor an interface.
pub(crate) fn answers_abstract(marker: &Marker<'_>, t: RowAt, b: RowAt) -> bool
    ensures { result ≡ answers_abstract (all_of marker.now) t b }
{
    is_concrete_at(marker.tables.world.recs.as_slice(), t) && is_abstract_at(marker, b)
}
