//! Which members hide others.

ghost use Rattle.std.specs.Prelude.{◌≡◌, IfOk};
ghost use Rattle.std.specs.List.{list_any};
ghost use Rattle.rules.specs.type_rules.Searches.{has_impl, overrides, accessors_override};
ghost use Rattle.type_tables.specs.Tables.{IsTables};
ghost use Rattle.virtual_calls.specs.Slots.{AreSlots};
ghost use Rattle.virtual_calls.specs.named_members.Accessors.{table_of};
ghost use Rattle.virtual_calls.specs.named_members.Hiding.{any_overrides, hides};

use crate::named_members::accessors::accessors;
use crate::named_members::impls::{has_impl, same_slot};
use crate::named_members::kinds::{Kind, Mapped};
use crate::slots::Slots;
use il_base::NoMemory;
use il_base::world_model::TypeExpr;
use rules::link_rules::RowAt;
use std::alloc::Global;
use type_tables::tables::Tables;

/// Whether a MethodImpl row of one of these types has this body for a declaration with this slot.
fn have_impl(
    alloc: Global,
    tables: &Tables<'_>,
    slots: &Slots,
    types: &[TypeExpr],
    body: RowAt,
    slot: Option<RowAt>,
) -> Result<bool, NoMemory>
    requires tables { IsTables tables.now }
    requires slots { AreSlots tables.now.world.now.recs slots.now }
    ensures { IfOk result (λ have. have ≡ list_any (has_impl tables.now.world.now.recs body slot) types.now) }
{
    for ty in types {
        match has_impl(alloc, tables, slots, ty, body, slot) {
            Ok(true) => return Ok(true),
            Ok(false) => {}
            Err(error) => return Err(error),
        }
    }
    Ok(false)
}

/// Whether a method overrides another: it has its slot, or a MethodImpl row of one of these types says so.
#[tactic(auto, unfolding(rules::specs::type_rules::Searches::overrides))]
fn overrides(
    alloc: Global,
    tables: &Tables<'_>,
    slots: &Slots,
    types: &[TypeExpr],
    method: RowAt,
    other: RowAt,
) -> Result<bool, NoMemory>
    requires tables { IsTables tables.now }
    requires slots { AreSlots tables.now.world.now.recs slots.now }
    ensures { IfOk result (λ does. does ≡ overrides tables.now.world.now.recs types.now method other) }
{
    let slot = slots.at(other);
    if same_slot(slots.at(method), slot) {
        return Ok(true);
    }
    have_impl(alloc, tables, slots, types, method, slot)
}

/// Whether a method overrides one of others.
fn overrides_one(
    alloc: Global,
    tables: &Tables<'_>,
    slots: &Slots,
    types: &[TypeExpr],
    method: RowAt,
    others: &[RowAt],
) -> Result<bool, NoMemory>
    requires tables { IsTables tables.now }
    requires slots { AreSlots tables.now.world.now.recs slots.now }
    ensures { IfOk result (λ does. does ≡ list_any (overrides tables.now.world.now.recs types.now method) others.now) }
{
    for other in others {
        match overrides(alloc, tables, slots, types, method, *other) {
            Ok(true) => return Ok(true),
            Ok(false) => {}
            Err(error) => return Err(error),
        }
    }
    Ok(false)
}

/// Whether one of some methods overrides one of others.
fn any_overrides(
    alloc: Global,
    tables: &Tables<'_>,
    slots: &Slots,
    types: &[TypeExpr],
    methods: &[RowAt],
    others: &[RowAt],
) -> Result<bool, NoMemory>
    requires tables { IsTables tables.now }
    requires slots { AreSlots tables.now.world.now.recs slots.now }
    ensures { IfOk result (λ does. does ≡ any_overrides tables.now.world.now.recs types.now others.now methods.now) }
{
    for method in methods {
        match overrides_one(alloc, tables, slots, types, *method, others) {
            Ok(true) => return Ok(true),
            Ok(false) => {}
            Err(error) => return Err(error),
        }
    }
    Ok(false)
}

/// Whether an accessor of a property or an event overrides one of another.
fn accessors_override(
    alloc: Global,
    tables: &Tables<'_>,
    slots: &Slots,
    types: &[TypeExpr],
    mapped: Mapped,
    x: RowAt,
    y: RowAt,
) -> Result<bool, NoMemory>
    requires tables { IsTables tables.now }
    requires slots { AreSlots tables.now.world.now.recs slots.now }
    ensures { IfOk result (λ does. does ≡ accessors_override tables.now.world.now.recs types.now (table_of mapped) x y) }
{
    let methods = accessors(alloc, tables, mapped, x)?;
    let others = accessors(alloc, tables, mapped, y)?;
    any_overrides(
        alloc,
        tables,
        slots,
        types,
        methods.as_slice(),
        others.as_slice(),
    )
}

/// Whether a member found before hides another of its kind; a field hides none.
fn hides(
    alloc: Global,
    tables: &Tables<'_>,
    slots: &Slots,
    types: &[TypeExpr],
    kind: Kind,
    x: RowAt,
    y: RowAt,
) -> Result<bool, NoMemory>
    requires tables { IsTables tables.now }
    requires slots { AreSlots tables.now.world.now.recs slots.now }
    ensures { IfOk result (λ does. does ≡ hides tables.now.world.now.recs types.now kind x y) }
{
    match kind {
        Kind::Field => Ok(false),
        Kind::Method => overrides(alloc, tables, slots, types, x, y),
        Kind::Property => accessors_override(alloc, tables, slots, types, Mapped::Property, x, y),
        Kind::Event => accessors_override(alloc, tables, slots, types, Mapped::Event, x, y),
    }
}

/// Whether one of the members found before hides another.
pub fn is_hidden(
    alloc: Global,
    tables: &Tables<'_>,
    slots: &Slots,
    types: &[TypeExpr],
    kind: Kind,
    found: &[RowAt],
    x: RowAt,
) -> Result<bool, NoMemory>
    requires tables { IsTables tables.now }
    requires slots { AreSlots tables.now.world.now.recs slots.now }
    ensures { IfOk result (λ is. is ≡ list_any (λ y. hides tables.now.world.now.recs types.now kind y x) found.now) }
{
    for y in found {
        match hides(alloc, tables, slots, types, kind, *y, x) {
            Ok(true) => return Ok(true),
            Ok(false) => {}
            Err(error) => return Err(error),
        }
    }
    Ok(false)
}
