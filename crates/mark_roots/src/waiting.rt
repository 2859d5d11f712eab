//! The facts that elements with `required="false"` give once their type is marked.

ghost use Rattle.std.specs.Prelude.{◌≡◌, ◌++◌, map, slice_get, IfOk, OnOk};
ghost use Rattle.std.specs.List.{flat_map};
ghost use Rattle.std.specs.Option.{option_copied};
ghost use Rattle.il_base.specs.declared.ids.Item.TheVariants as item;
ghost use Rattle.rules.specs.mark_rules.Roots.{waits_for, waiting_facts};
ghost use Rattle.mark_roots.specs.Lookups.{recs_in, IsLookup};
ghost use Rattle.mark_roots.specs.Waiting.{key_by, key_of, waits, kept_with, waits_at, AreWaiting};

use crate::lookup::Lookup;
use crate::members::add_root_members;
use crate::roots::root_type;
use descriptor_file::Root;
use il_base::world_model::AsmRec;
use il_base::{Item, NoMemory, TypeId};
use mark_parts::mark_facts::facts::Facts;
use mark_parts::mark_facts::rows::type_at;
use rules::link_rules::RowAt;
use std::alloc::Global;
use type_tables::groups::Groups;

/// The elements that wait for their types, by the ids of these types.
#[derive(Drop)]
pub struct Waiting {
    groups: Groups,
}

/// The type for which an element waits, if it waits.
fn waits(lookup: &Lookup<'_, '_>, r: &Root) -> Result<Option<RowAt>, NoMemory>
    requires { IsLookup lookup.now }
    ensures { IfOk result (λ at. at ≡ waits (recs_in lookup.now) r.now) }
{
    match &r.typ {
        None => Ok(None),
        Some(_) => {
            if r.required {
                return Ok(None);
            }
            root_type(lookup, r)
        }
    }
}

/// The number of the type for which an element waits; 0 also for one that doesn't.
fn key_by(all: &[AsmRec], at: Option<RowAt>) -> Result<u32, NoMemory>
    ensures { IfOk result (λ key. key ≡ key_by all.now at) }
{
    match at {
        None => Ok(0),
        Some(at) => {
            let id = type_at(all, at)?;
            Ok(id.0)
        }
    }
}

/// The number by which an element is grouped.
fn key_of(lookup: &Lookup<'_, '_>, r: &Root) -> Result<u32, NoMemory>
    requires { IsLookup lookup.now }
    ensures { IfOk result (λ key. key ≡ key_of (recs_in lookup.now) r.now) }
{
    let marker = lookup.marker;
    let at = waits(lookup, r)?;
    key_by(marker.tables.world.recs.as_slice(), at)
}

/// The numbers by which elements are grouped.
fn keys_of(alloc: Global, lookup: &Lookup<'_, '_>, roots: &[Root]) -> Result<Vec<u32>, NoMemory>
    requires { IsLookup lookup.now }
    ensures { IfOk result (λ keys. keys.items ≡ map (key_of (recs_in lookup.now)) roots.now) }
{
    let mut keys = Vec::new(alloc);
    for r in roots {
        let key = key_of(lookup, r)?;
        keys.push(key)?;
    }
    Ok(keys)
}

/// Adds the members that an element keeps, where its type is this one.
fn add_kept(
    alloc: Global,
    lookup: &Lookup<'_, '_>,
    at: RowAt,
    id: TypeId,
    r: &Root,
    facts: &mut Facts,
) -> Result<(), NoMemory>
    requires { IsLookup lookup.now }
    ensures { OnOk result (facts.new ≡ facts.old ++ kept_with (recs_in lookup.now) id r.now at) }
{
    let marker = lookup.marker;
    let own = type_at(marker.tables.world.recs.as_slice(), at)?;
    let same = own.0 == id.0;
    if same {
        return add_root_members(alloc, lookup, at, r, facts);
    }
    Ok(())
}

/// Adds the facts that an element gives once a type is marked.
fn add_waiting_root(
    alloc: Global,
    lookup: &Lookup<'_, '_>,
    id: TypeId,
    r: &Root,
    facts: &mut Facts,
) -> Result<(), NoMemory>
    requires { IsLookup lookup.now }
    ensures { OnOk result (facts.new ≡ facts.old ++ waits_for (recs_in lookup.now) (item.Typ id) r.now) }
{
    let found = waits(lookup, r)?;
    match found {
        Some(at) => {
            add_kept(alloc, lookup, at, id, r, facts)?;
            Ok(())
        }
        None => Ok(()),
    }
}

/// The element in a place, from 0.
fn root_at(roots: &[Root], k: u32) -> Option<&Root>
    ensures { option_copied result ≡ slice_get roots.now k }
{
    roots.get(k as usize)
}

/// Adds the facts that an element, by its place from 0, gives once a type is marked.
#[tactic(auto, using(crate::proofs::Lists::none_more))]
fn add_at(
    alloc: Global,
    lookup: &Lookup<'_, '_>,
    roots: &[Root],
    id: TypeId,
    k: u32,
    facts: &mut Facts,
) -> Result<(), NoMemory>
    requires { IsLookup lookup.now }
    ensures { OnOk result (facts.new ≡ facts.old ++ waits_at (recs_in lookup.now) roots.now id k) }
{
    match root_at(roots, k) {
        Some(r) => add_waiting_root(alloc, lookup, id, r, facts),
        None => Ok(()),
    }
}

/// Adds the facts that these elements, by their places from 0, give once a type is marked.
fn add_group(
    alloc: Global,
    lookup: &Lookup<'_, '_>,
    roots: &[Root],
    id: TypeId,
    places: &[u32],
    facts: &mut Facts,
) -> Result<(), NoMemory>
    requires { IsLookup lookup.now }
    ensures { OnOk result (facts.new ≡ facts.old ++ flat_map (waits_at (recs_in lookup.now) roots.now id) places.now) }
{
    for k in places {
        add_at(alloc, lookup, roots, id, *k, facts)?;
    }
    Ok(())
}

impl Waiting {
    /// The elements that wait among these.
    pub fn of(alloc: Global, lookup: &Lookup<'_, '_>, roots: &[Root]) -> Result<Waiting, NoMemory>
        requires { IsLookup lookup.now }
        ensures { IfOk result (AreWaiting (recs_in lookup.now) roots.now) }
    {
        let keys = keys_of(alloc, lookup, roots)?;
        let groups = Groups::of(alloc, keys.as_slice())?;
        Ok(Waiting { groups })
    }

    /// Adds the facts that the elements which wait for a marked type give; for other items there are none.
    #[tactic(auto, unfolding(rules::specs::mark_rules::Roots::waiting_facts))]
    pub fn add(
        &self,
        alloc: Global,
        lookup: &Lookup<'_, '_>,
        roots: &[Root],
        of: Item,
        facts: &mut Facts,
    ) -> Result<(), NoMemory>
        requires lookup { IsLookup lookup.now }
        requires waiting { AreWaiting (recs_in lookup.now) roots.now self.now }
        ensures { OnOk result (facts.new ≡ facts.old ++ waiting_facts (recs_in lookup.now) roots.now of) }
    {
        match of {
            Item::Typ(id) => {
                let places = self.groups.rows_with(id.0);
                add_group(alloc, lookup, roots, id, places, facts)?;
                Ok(())
            }
            Item::Asm(_) => Ok(()),
            Item::Method(_) => Ok(()),
            Item::Field(_) => Ok(()),
            Item::Prop(_) => Ok(()),
            Item::Event(_) => Ok(()),
            Item::Impl(_) => Ok(()),
        }
    }
}
