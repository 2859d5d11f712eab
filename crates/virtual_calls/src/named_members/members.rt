//! All members of a type under a name, as ids.

ghost use Rattle.std.specs.Prelude.{◌≡◌, ◌++◌, IfOk, OnOk};
ghost use Rattle.rules.specs.link_rules.Members.{with_bases};
ghost use Rattle.rules.specs.type_rules.Searches.{items_of, along, members_along, members_named};
ghost use Rattle.type_tables.specs.Tables.{IsTables};
ghost use Rattle.virtual_calls.specs.Slots.{AreSlots};
ghost use Rattle.virtual_calls.specs.named_members.Named.{found};

use crate::named_members::kinds::Kind;
use crate::named_members::named::found;
use crate::nearest::{base_of, type_count};
use crate::slots::Slots;
use il_base::world_model::TypeExpr;
use il_base::{Item, NoMemory, Seq, Text, TypeId};
use rules::link_rules::RowAt;
use rules::type_rules::FoundMember;
use std::alloc::Global;
use type_tables::member_search::homes::type_home;
use type_tables::member_search::own_types::definition_expr;
use type_tables::tables::Tables;

/// A type and its bases, the nearest first.
fn with_bases(
    alloc: Global,
    tables: &Tables<'_>,
    start: TypeExpr,
) -> Result<Vec<TypeExpr>, NoMemory>
    requires { IsTables tables.now }
    ensures { IfOk result (λ types. types.items ≡ with_bases tables.now.world.now.recs start) }
{
    let count = type_count(tables)?;
    let mut types = Vec::new(alloc);
    let mut ty = start;
    for _ in 0..count {
        let base = base_of(alloc, tables, &ty)?;
        types.push(ty)?;
        match base {
            Some(base) => ty = base,
            None => return Ok(types),
        }
    }
    Ok(types)
}

/// The type in a row, and its bases.
fn along(alloc: Global, tables: &Tables<'_>, home: Option<RowAt>) -> Result<Vec<TypeExpr>, NoMemory>
    requires { IsTables tables.now }
    ensures { IfOk result (λ types. types.items ≡ along tables.now.world.now.recs home) }
{
    match home {
        None => Ok(Vec::new(alloc)),
        Some(at) => {
            let start = definition_expr(tables.world.recs.as_slice(), at)?;
            with_bases(alloc, tables, start)
        }
    }
}

/// Appends the ids of members to others.
fn add_items(members: &[FoundMember], items: &mut Seq<Item>) -> Result<(), NoMemory>
    ensures { OnOk result (items.new ≡ items.old ++ items_of members.now) }
{
    for m in members {
        items.push(m.item)?;
    }
    Ok(())
}

/// Appends the ids of the members of a kind that types have, all or those of a name, to others.
fn add_found(
    alloc: Global,
    tables: &Tables<'_>,
    slots: &Slots,
    types: &[TypeExpr],
    kind: Kind,
    wanted: &Option<Text>,
    items: &mut Seq<Item>,
) -> Result<(), NoMemory>
    requires tables { IsTables tables.now }
    requires slots { AreSlots tables.now.world.now.recs slots.now }
    ensures { OnOk result (items.new ≡ items.old ++ items_of (found tables.now.world.now.recs wanted.now types.now kind)) }
{
    let members = found(alloc, tables, slots, types, kind, wanted)?;
    add_items(members.as_slice(), items)
}

/// The members that a type and its bases have under a name: fields, then methods, properties and events.
fn members_along(
    alloc: Global,
    tables: &Tables<'_>,
    slots: &Slots,
    types: &[TypeExpr],
    name: &[u8],
) -> Result<Seq<Item>, NoMemory>
    requires tables { IsTables tables.now }
    requires slots { AreSlots tables.now.world.now.recs slots.now }
    ensures { IfOk result (λ items. items ≡ members_along tables.now.world.now.recs name.now types.now) }
{
    let name = Seq::from_slice(alloc, name)?;
    let one = Some(name);
    let mut items = Seq::new(alloc);
    add_found(alloc, tables, slots, types, Kind::Field, &one, &mut items)?;
    add_found(alloc, tables, slots, types, Kind::Method, &one, &mut items)?;
    add_found(
        alloc,
        tables,
        slots,
        types,
        Kind::Property,
        &one,
        &mut items,
    )?;
    add_found(alloc, tables, slots, types, Kind::Event, &one, &mut items)?;
    Ok(items)
}

/// The public members of a type that have a name, in the order of their rows, then the public ones of instances of each base;
/// a method, property or event that one before overrides is left out. Fields come first, then methods, properties, events.
/// A type that isn't there has none. The error is that memory ends, or that an id needs more than 32 bits.
#[tactic(auto, unfolding(rules::specs::type_rules::Searches::members_named))]
pub fn members_named(
    alloc: Global,
    tables: &Tables<'_>,
    slots: &Slots,
    t: TypeId,
    name: &[u8],
) -> Result<Seq<Item>, NoMemory>
    requires tables { IsTables tables.now }
    requires slots { AreSlots tables.now.world.now.recs slots.now }
    ensures { IfOk result (λ items. items ≡ members_named tables.now.world.now.recs t name.now) }
{
    let home = type_home(tables.world.recs.as_slice(), t)?;
    let types = along(alloc, tables, home)?;
    members_along(alloc, tables, slots, types.as_slice(), name)
}
