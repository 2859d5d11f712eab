//! The sites of items.

ghost use Rattle.std.specs.Prelude.{◌≡◌, Some, IfOk};
ghost use Rattle.il_base.specs.declared.ids.Item.TheVariants as item;
ghost use Rattle.rules.specs.mark_rules.Places.{row_of};
ghost use Rattle.rules.specs.site_rules.Arguments.{sites_of_parts};
ghost use Rattle.rules.specs.site_rules.Items.{row_sites, item_sites};
ghost use Rattle.mark_flow.specs.Tables.{recs_in, AreFlowTables};

use crate::bodies::method_sites;
use crate::owners::{class_of_impl, type_of_event, type_of_field, type_of_property};
use crate::tables::FlowTables;
use il_base::{EventId, FieldId, ImplId, Item, NoMemory, PropId, Seq, TypeId};
use mark_parts::items::{
    add_parts_of_event, add_parts_of_field, add_parts_of_impl, add_parts_of_property,
};
use mark_parts::mark_facts::parts::Parts;
use mark_parts::mark_facts::rows::row_of;
use requirements::generic_sites::named::put_parts;
use requirements::item_sites::types::add_base;
use rules::link_rules::RowAt;
use rules::site_rules::Site;
use std::alloc::Global;

/// The sites of parts of an item, which is in an assembly and in the type `owner`.
fn sites_of(
    alloc: Global,
    tables: &FlowTables<'_>,
    asm: u32,
    owner: Option<TypeId>,
    parts: &Parts,
) -> Result<Seq<Site>, NoMemory>
    requires { AreFlowTables tables.now }
    ensures { IfOk result (λ found. found ≡ sites_of_parts (recs_in tables.now) asm owner parts.now) }
{
    let mut found = Seq::new(alloc);
    put_parts(alloc, &tables.annotated, asm, owner, parts, &mut found)?;
    Ok(found)
}

/// The sites of a type: those of what it extends.
fn type_sites(
    alloc: Global,
    tables: &FlowTables<'_>,
    id: TypeId,
    at: RowAt,
) -> Result<Seq<Site>, NoMemory>
    requires { AreFlowTables tables.now }
    ensures { IfOk result (λ found. found ≡ row_sites (recs_in tables.now) (item.Typ id) at) }
{
    let mut parts = Parts::new(alloc);
    add_base(alloc, tables.annotated.marker, at, &mut parts)?;
    sites_of(alloc, tables, at.asm, Some(id), &parts)
}

/// The sites of a field.
fn field_sites(
    alloc: Global,
    tables: &FlowTables<'_>,
    _id: FieldId,
    at: RowAt,
) -> Result<Seq<Site>, NoMemory>
    requires { AreFlowTables tables.now }
    ensures { IfOk result (λ found. found ≡ row_sites (recs_in tables.now) (item.Field _id) at) }
{
    let marker = tables.annotated.marker;
    let owner = type_of_field(marker, at)?;
    let mut parts = Parts::new(alloc);
    add_parts_of_field(alloc, marker, at, &mut parts)?;
    sites_of(alloc, tables, at.asm, owner, &parts)
}

/// The sites of a property.
fn property_sites(
    alloc: Global,
    tables: &FlowTables<'_>,
    _id: PropId,
    at: RowAt,
) -> Result<Seq<Site>, NoMemory>
    requires { AreFlowTables tables.now }
    ensures { IfOk result (λ found. found ≡ row_sites (recs_in tables.now) (item.Prop _id) at) }
{
    let marker = tables.annotated.marker;
    let owner = type_of_property(marker, at)?;
    let mut parts = Parts::new(alloc);
    add_parts_of_property(alloc, marker, at, &mut parts)?;
    sites_of(alloc, tables, at.asm, owner, &parts)
}

/// The sites of an event.
fn event_sites(
    alloc: Global,
    tables: &FlowTables<'_>,
    _id: EventId,
    at: RowAt,
) -> Result<Seq<Site>, NoMemory>
    requires { AreFlowTables tables.now }
    ensures { IfOk result (λ found. found ≡ row_sites (recs_in tables.now) (item.Event _id) at) }
{
    let marker = tables.annotated.marker;
    let owner = type_of_event(marker, at)?;
    let mut parts = Parts::new(alloc);
    add_parts_of_event(alloc, marker, at, &mut parts)?;
    sites_of(alloc, tables, at.asm, owner, &parts)
}

/// The sites of an interface row.
fn impl_sites(
    alloc: Global,
    tables: &FlowTables<'_>,
    _id: ImplId,
    at: RowAt,
) -> Result<Seq<Site>, NoMemory>
    requires { AreFlowTables tables.now }
    ensures { IfOk result (λ found. found ≡ row_sites (recs_in tables.now) (item.Impl _id) at) }
{
    let marker = tables.annotated.marker;
    let owner = class_of_impl(marker.tables.world.recs.as_slice(), at)?;
    let mut parts = Parts::new(alloc);
    add_parts_of_impl(alloc, marker, at, &mut parts)?;
    sites_of(alloc, tables, at.asm, owner, &parts)
}

/// The sites of an item in its row.
fn row_sites(
    alloc: Global,
    tables: &FlowTables<'_>,
    item: Item,
    at: RowAt,
) -> Result<Seq<Site>, NoMemory>
    requires tables { AreFlowTables tables.now }
    requires home { row_of (recs_in tables.now) item ≡ Some at }
    ensures { IfOk result (λ found. found ≡ row_sites (recs_in tables.now) item at) }
{
    match item {
        Item::Asm(_) => Ok(Seq::new(alloc)),
        Item::Typ(id) => type_sites(alloc, tables, id, at),
        Item::Method(id) => method_sites(alloc, tables, id, at),
        Item::Field(id) => field_sites(alloc, tables, id, at),
        Item::Prop(id) => property_sites(alloc, tables, id, at),
        Item::Event(id) => event_sites(alloc, tables, id, at),
        Item::Impl(id) => impl_sites(alloc, tables, id, at),
    }
}

/// The sites of an item: where it asks for members of a type or for a type by its name, with what may be there. An item that isn't
/// there has none.
#[tactic(auto, unfolding(rules::specs::site_rules::Items::item_sites), using(crate::proofs::Lists::none_more))]
pub fn item_sites(alloc: Global, tables: &FlowTables<'_>, item: Item) -> Result<Seq<Site>, NoMemory>
    requires { AreFlowTables tables.now }
    ensures { IfOk result (λ found. found ≡ item_sites (recs_in tables.now) item) }
{
    let marker = tables.annotated.marker;
    match row_of(marker.tables.world.recs.as_slice(), item) {
        Err(error) => Err(error),
        Ok(None) => Ok(Seq::new(alloc)),
        Ok(Some(at)) => row_sites(alloc, tables, item, at),
    }
}
