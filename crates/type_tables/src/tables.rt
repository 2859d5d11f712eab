//! The tables that are made once of a world.

ghost use Rattle.std.specs.Prelude.{◌≡◌, slice_get, IfOk, IfSome};
ghost use Rattle.std.specs.Option.{option_map};
ghost use Rattle.std.specs.List.{AllZip};
ghost use Rattle.rules.specs.link_rules.Linked.{IsWorld};
ghost use Rattle.type_tables.specs.member_search.Linked.{IsLinked};
ghost use Rattle.type_tables.specs.Tables.{interface_classes, impl_classes, property_parents, event_parents, associations, AreRowTables, AreRowsAt, IsTables};

use crate::groups::Groups;
use crate::member_search::linked::{Linked, Scope, assembly_at};
use crate::member_search::names::{Names, names_of};
use crate::member_search::owners::method_owners;
use base_laws::link_laws::laws::links_tell;
use base_laws::type_laws::laws::uses_told;
use il_base::NoMemory;
use il_base::world_model::{AsmRec, World};
use std::alloc::Global;

/// The tables of an assembly: the type of each method, and the rows of tables by the types or members that they belong to.
#[derive(Drop)]
pub struct RowTables {
    /// The first type whose run each method is in, both by their rows from 0.
    pub owners: Vec<Option<u32>>,
    /// InterfaceImpl by Class.
    pub interfaces: Groups,
    /// MethodImpl by Class.
    pub impls: Groups,
    /// PropertyMap by Parent.
    pub properties: Groups,
    /// EventMap by Parent.
    pub events: Groups,
    /// MethodSemantics by Association.
    pub semantics: Groups,
}

/// An assembly of a world, with its tables.
#[derive(Clone, Copy)]
pub struct Rows<'a> {
    pub scope: Scope<'a>,
    pub tables: &'a RowTables,
}

/// A world, the members of each assembly by name, and the rows of each.
#[derive(Drop)]
pub struct Tables<'w> {
    pub world: &'w World,
    pub names: Vec<Names<'w>>,
    pub rows: Vec<RowTables>,
}

fn interface_classes(alloc: Global, rec: &AsmRec) -> Result<Vec<u32>, NoMemory>
    ensures { IfOk result (λ keys. keys.items ≡ interface_classes rec.now) }
{
    let mut keys = Vec::new(alloc);
    for row in rec.interface_impl.as_slice() {
        keys.push(row.class)?;
    }
    Ok(keys)
}

fn impl_classes(alloc: Global, rec: &AsmRec) -> Result<Vec<u32>, NoMemory>
    ensures { IfOk result (λ keys. keys.items ≡ impl_classes rec.now) }
{
    let mut keys = Vec::new(alloc);
    for row in rec.method_impl.as_slice() {
        keys.push(row.class)?;
    }
    Ok(keys)
}

fn property_parents(alloc: Global, rec: &AsmRec) -> Result<Vec<u32>, NoMemory>
    ensures { IfOk result (λ keys. keys.items ≡ property_parents rec.now) }
{
    let mut keys = Vec::new(alloc);
    for row in rec.property_map.as_slice() {
        keys.push(row.parent)?;
    }
    Ok(keys)
}

fn event_parents(alloc: Global, rec: &AsmRec) -> Result<Vec<u32>, NoMemory>
    ensures { IfOk result (λ keys. keys.items ≡ event_parents rec.now) }
{
    let mut keys = Vec::new(alloc);
    for row in rec.event_map.as_slice() {
        keys.push(row.parent)?;
    }
    Ok(keys)
}

fn associations(alloc: Global, rec: &AsmRec) -> Result<Vec<u32>, NoMemory>
    ensures { IfOk result (λ keys. keys.items ≡ associations rec.now) }
{
    let mut keys = Vec::new(alloc);
    for row in rec.method_semantics.as_slice() {
        keys.push(row.association)?;
    }
    Ok(keys)
}

impl RowTables {
    fn of(alloc: Global, rec: &AsmRec) -> Result<RowTables, NoMemory>
        ensures { IfOk result (AreRowTables rec.now) }
    {
        let owners = method_owners(alloc, rec)?;
        let interfaces = Groups::of(alloc, interface_classes(alloc, rec)?.as_slice())?;
        let impls = Groups::of(alloc, impl_classes(alloc, rec)?.as_slice())?;
        let properties = Groups::of(alloc, property_parents(alloc, rec)?.as_slice())?;
        let events = Groups::of(alloc, event_parents(alloc, rec)?.as_slice())?;
        let semantics = Groups::of(alloc, associations(alloc, rec)?.as_slice())?;
        Ok(RowTables {
            owners,
            interfaces,
            impls,
            properties,
            events,
            semantics,
        })
    }
}

fn rows_of(alloc: Global, all: &[AsmRec]) -> Result<Vec<RowTables>, NoMemory>
    ensures { IfOk result (λ rows. AllZip AreRowTables all.now rows.items) }
{
    let mut rows = Vec::new(alloc);
    for rec in all {
        let own = RowTables::of(alloc, rec)?;
        rows.push(own)?;
    }
    Ok(rows)
}

impl<'w> Tables<'w> {
    /// The tables of a world that a link gave.
    pub fn of(alloc: Global, world: &'w World) -> Result<Tables<'w>, NoMemory>
        requires { IsWorld world.now }
        ensures are { IfOk result IsTables }
        ensures world { IfOk result (λ t. t.world.now ≡ world.now) }
    {
        links_tell();
        uses_told();
        let all = world.recs.as_slice();
        let names = names_of(alloc, all)?;
        let rows = rows_of(alloc, all)?;
        Ok(Tables { world, names, rows })
    }

    /// The assemblies of the world, with the links of their type tokens.
    pub fn linked(&self) -> Linked<'_>
        requires { IsTables self.now }
        ensures is { IsLinked result }
        ensures all { result.all.now ≡ self.now.world.now.recs }
        ensures links { result.links.now ≡ self.now.world.now.types }
    {
        Linked {
            all: self.world.recs.as_slice(),
            links: self.world.types.as_slice(),
            names: self.names.as_slice(),
        }
    }

    /// An assembly of the world, by its place from 0, with its tables.
    pub fn rows_at(&self, asm: u32) -> Option<Rows<'_>>
        requires { IsTables self.now }
        ensures there { option_map (λ (r : Rows). r.scope.rec.now) result ≡ slice_get self.now.world.now.recs asm }
        ensures are { IfSome result (AreRowsAt self.now asm) }
    {
        let linked = self.linked();
        let made = self.rows.as_slice();
        let rec = assembly_at(linked.all, asm)?;
        let scope = Scope { linked, asm, rec };
        Some(Rows {
            scope,
            tables: &made[asm as usize],
        })
    }
}
