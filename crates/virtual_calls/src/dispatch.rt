//! Which method a virtual call runs.

ghost use Rattle.std.specs.Prelude.{◌≡◌, IfOk};
ghost use Rattle.rules.specs.type_rules.Dispatch.{in_interface, dispatch_slot, dispatch};
ghost use Rattle.type_tables.specs.Tables.{IsTables};
ghost use Rattle.virtual_calls.specs.Slots.{AreSlots, slot_of_id};

use crate::class_slots::class_dispatch;
use crate::interface_slots::interface_dispatch;
use crate::slots::{Slots, slot_of_method};
use il_base::world_model::TypeExpr;
use il_base::{MethodId, NoMemory};
use rules::link_rules::RowAt;
use std::alloc::Global;
use type_tables::member_search::bases::is_interface_at;
use type_tables::methods::{method_home, method_id, type_of_method};
use type_tables::tables::Tables;

/// Whether a method is one of an interface.
pub fn in_interface(tables: &Tables<'_>, slot: RowAt) -> Result<bool, NoMemory>
    requires { IsTables tables.now }
    ensures { IfOk result (λ is. is ≡ in_interface tables.now.world.now.recs slot) }
{
    match type_of_method(tables, slot) {
        Ok(Some(at)) => Ok(is_interface_at(tables.world.recs.as_slice(), at)),
        Ok(None) => Ok(false),
        Err(error) => Err(error),
    }
}

/// What a type has for a slot, by where the slot stands.
fn dispatch_slot(
    alloc: Global,
    tables: &Tables<'_>,
    slots: &Slots,
    t: &TypeExpr,
    owner: &TypeExpr,
    slot: RowAt,
) -> Result<Option<RowAt>, NoMemory>
    requires tables { IsTables tables.now }
    requires slots { AreSlots tables.now.world.now.recs slots.now }
    ensures { IfOk result (λ found. found ≡ dispatch_slot tables.now.world.now.recs t.now owner.now slot) }
{
    if in_interface(tables, slot)? {
        return interface_dispatch(alloc, tables, slots, t, owner, slot);
    }
    class_dispatch(alloc, tables, slots, t, slot)
}

/// The slot of a method, by its id.
fn slot_of_id(
    tables: &Tables<'_>,
    slots: &Slots,
    method: MethodId,
) -> Result<Option<RowAt>, NoMemory>
    requires { AreSlots tables.now.world.now.recs slots.now }
    ensures { IfOk result (λ slot. slot ≡ slot_of_id tables.now.world.now.recs method) }
{
    match method_home(tables.world.recs.as_slice(), method) {
        Ok(Some(at)) => Ok(slot_of_method(tables, slots, at)),
        Ok(None) => Ok(None),
        Err(error) => Err(error),
    }
}

/// The method that a virtual method, by its slot, is answered by in a type; None for a method that isn't virtual or isn't
/// there. For an interface slot `owner` is the interface instance, for a class slot it isn't looked at. A method without a
/// body is an answer too.
#[tactic(auto, unfolding(rules::specs::type_rules::Dispatch::dispatch))]
pub fn dispatch(
    alloc: Global,
    tables: &Tables<'_>,
    slots: &Slots,
    t: &TypeExpr,
    owner: &TypeExpr,
    method: MethodId,
) -> Result<Option<MethodId>, NoMemory>
    requires tables { IsTables tables.now }
    requires slots { AreSlots tables.now.world.now.recs slots.now }
    ensures { IfOk result (λ found. found ≡ dispatch tables.now.world.now.recs t.now owner.now method) }
{
    let Some(slot) = slot_of_id(tables, slots, method)? else {
        return Ok(None);
    };
    let Some(at) = dispatch_slot(alloc, tables, slots, t, owner, slot)? else {
        return Ok(None);
    };
    let id = method_id(tables.world.recs.as_slice(), at)?;
    Ok(Some(id))
}
