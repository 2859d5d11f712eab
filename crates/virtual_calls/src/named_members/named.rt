//! The members of a kind that types have, all or those of a name: those of the first type that are public, then the public ones
//! of instances of each base that none before hides.

ghost use Rattle.std.specs.Prelude.{◌≡◌, ◌&&◌, ◌++◌, [], map, false, not, IfOk, OnOk};
ghost use Rattle.std.specs.List.{list_any};
ghost use Rattle.type_tables.specs.Tables.{IsTables};
ghost use Rattle.virtual_calls.specs.Slots.{AreSlots};
ghost use Rattle.virtual_calls.specs.named_members.Kinds.{named_rows};
ghost use Rattle.virtual_calls.specs.named_members.Counts.{counts};
ghost use Rattle.virtual_calls.specs.named_members.Hiding.{hides};
ghost use Rattle.virtual_calls.specs.named_members.Named.{kept, counted, item_of, id_of, member_of, gather, found};

use crate::named_members::counts::counts;
use crate::named_members::kinds::Kind;
use crate::named_members::overrides::is_hidden;
use crate::named_members::rows::named_rows;
use crate::slots::Slots;
use il_base::world_model::{AsmRec, TypeExpr};
use il_base::{EventId, FieldId, Item, MethodId, NoMemory, PropId, Seq, Text};
use rules::link_rules::RowAt;
use rules::type_rules::FoundMember;
use std::alloc::Global;
use type_tables::member_search::counted::{Counted, rows_before, sum};
use type_tables::tables::Tables;

/// Whether a row counts, and none found before hides it.
fn is_kept(
    alloc: Global,
    tables: &Tables<'_>,
    slots: &Slots,
    types: &[TypeExpr],
    kind: Kind,
    inherited: bool,
    found: &[RowAt],
    x: RowAt,
) -> Result<bool, NoMemory>
    requires tables { IsTables tables.now }
    requires slots { AreSlots tables.now.world.now.recs slots.now }
    ensures { IfOk result (λ is. is ≡ (counts tables.now.world.now.recs kind inherited x && not (list_any (λ y. hides tables.now.world.now.recs types.now kind y x) found.now))) }
{
    if !counts(alloc, tables, kind, inherited, x)? {
        return Ok(false);
    }
    let hidden = is_hidden(alloc, tables, slots, types, kind, found, x)?;
    Ok(!hidden)
}

/// Those of some rows of a type that count and that none found before hides.
fn kept(
    alloc: Global,
    tables: &Tables<'_>,
    slots: &Slots,
    types: &[TypeExpr],
    kind: Kind,
    inherited: bool,
    found: &[RowAt],
    rows: &[RowAt],
) -> Result<Vec<RowAt>, NoMemory>
    requires tables { IsTables tables.now }
    requires slots { AreSlots tables.now.world.now.recs slots.now }
    ensures { IfOk result (λ more. more.items ≡ kept tables.now.world.now.recs types.now kind inherited found.now rows.now) }
{
    let mut more = Vec::new(alloc);
    for x in rows {
        if is_kept(alloc, tables, slots, types, kind, inherited, found, *x)? {
            more.push(*x)?;
        }
    }
    Ok(more)
}

/// Those with a wanted name of a type or of a base that none found before hides.
fn of_type(
    alloc: Global,
    tables: &Tables<'_>,
    slots: &Slots,
    types: &[TypeExpr],
    kind: Kind,
    wanted: &Option<Text>,
    inherited: bool,
    before: &[RowAt],
    ty: &TypeExpr,
) -> Result<Vec<RowAt>, NoMemory>
    requires tables { IsTables tables.now }
    requires slots { AreSlots tables.now.world.now.recs slots.now }
    ensures { IfOk result (λ more. more.items ≡ kept tables.now.world.now.recs types.now kind inherited before.now (named_rows tables.now.world.now.recs wanted.now kind ty.now)) }
{
    let rows = named_rows(alloc, tables, kind, wanted, ty)?;
    kept(
        alloc,
        tables,
        slots,
        types,
        kind,
        inherited,
        before,
        rows.as_slice(),
    )
}

/// The table whose rows count for the ids of a kind.
fn counted(kind: Kind) -> Counted
    ensures { result ≡ counted kind }
{
    match kind {
        Kind::Field => Counted::Fields,
        Kind::Method => Counted::Methods,
        Kind::Property => Counted::Properties,
        Kind::Event => Counted::Events,
    }
}

fn item_of(kind: Kind, n: u32) -> Item
    ensures { result ≡ item_of kind n }
{
    match kind {
        Kind::Field => Item::Field(FieldId(n)),
        Kind::Method => Item::Method(MethodId(n)),
        Kind::Property => Item::Prop(PropId(n)),
        Kind::Event => Item::Event(EventId(n)),
    }
}

/// The id of a member: the rows of all assemblies before it count first.
fn id_of(all: &[AsmRec], kind: Kind, at: RowAt) -> Result<Item, NoMemory>
    ensures { IfOk result (λ id. id ≡ id_of all.now kind at) }
{
    let before = rows_before(all, counted(kind), at.asm as usize)?;
    let n = sum(before, at.row as usize)?;
    Ok(item_of(kind, n))
}

/// Appends the rows of a type as members to others.
fn add_members(
    alloc: Global,
    all: &[AsmRec],
    kind: Kind,
    ty: &TypeExpr,
    rows: &[RowAt],
    members: &mut Seq<FoundMember>,
) -> Result<(), NoMemory>
    ensures { OnOk result (members.new ≡ members.old ++ map (member_of all.now kind ty.now) rows.now) }
{
    for at in rows {
        let item = id_of(all, kind, *at)?;
        let owner = ty.copy(alloc)?;
        members.push(FoundMember { item, owner })?;
    }
    Ok(())
}

/// The members of a type and its bases, one type after the other.
fn gather(
    alloc: Global,
    tables: &Tables<'_>,
    slots: &Slots,
    types: &[TypeExpr],
    kind: Kind,
    wanted: &Option<Text>,
) -> Result<Seq<FoundMember>, NoMemory>
    requires tables { IsTables tables.now }
    requires slots { AreSlots tables.now.world.now.recs slots.now }
    ensures { IfOk result (λ members. members ≡ gather tables.now.world.now.recs wanted.now types.now kind false [] types.now) }
{
    let all = tables.world.recs.as_slice();
    let mut before = Vec::new(alloc);
    let mut members = Seq::new(alloc);
    let mut inherited = false;
    for ty in types {
        let more = of_type(
            alloc,
            tables,
            slots,
            types,
            kind,
            wanted,
            inherited,
            before.as_slice(),
            ty,
        )?;
        add_members(alloc, all, kind, ty, more.as_slice(), &mut members)?;
        before.extend_from_slice(more.as_slice())?;
        inherited = true;
    }
    Ok(members)
}

/// The members of a kind that a type and its bases, the nearest first, have, all or those of a name.
pub fn found(
    alloc: Global,
    tables: &Tables<'_>,
    slots: &Slots,
    types: &[TypeExpr],
    kind: Kind,
    wanted: &Option<Text>,
) -> Result<Seq<FoundMember>, NoMemory>
    requires tables { IsTables tables.now }
    requires slots { AreSlots tables.now.world.now.recs slots.now }
    ensures { IfOk result (λ members. members ≡ found tables.now.world.now.recs wanted.now types.now kind) }
{
    let members = gather(alloc, tables, slots, types, kind, wanted)?;
    Ok(members)
}
