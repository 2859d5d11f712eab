//! What a site asks for of a type that is known there.

ghost use Rattle.std.specs.Prelude.{◌≡◌, ◌++◌, IfOk, OnOk};
ghost use Rattle.std.specs.List.{flat_map};
ghost use Rattle.rules.specs.link_rules.Cycles.{listed};
ghost use Rattle.rules.specs.link_rules.Members.{type_home};
ghost use Rattle.rules.specs.mark_rules.FlowMarks.{asked_members, names_constructors, seen, reach, made_if, asked_of};
ghost use Rattle.mark_flow.specs.Tables.{recs_in, AreFlowTables};
ghost use Rattle.mark_flow.specs.Asked.{reached_of};

use crate::named::add_named_members;
use crate::tables::FlowTables;
use il_base::{Item, NoMemory, TypeId, has_type_flag};
use mark_members::members::add_members_by;
use mark_parts::mark_facts::fact::Fact;
use mark_parts::mark_facts::facts::Facts;
use rules::link_rules::RowAt;
use rules::mark_rules::member_kinds;
use rules::site_rules::Site;
use std::alloc::Global;
use type_tables::member_search::homes::type_home;

/// Whether kinds of members name constructors.
fn names_constructors(kinds: u32) -> bool
    ensures { result ≡ names_constructors kinds }
{
    has_type_flag(kinds, member_kinds::PUBLIC_PARAMETERLESS_CONSTRUCTOR)
        || has_type_flag(kinds, member_kinds::OTHER_PUBLIC_CONSTRUCTORS)
        || has_type_flag(kinds, member_kinds::NON_PUBLIC_CONSTRUCTORS)
}

/// Adds the facts that a type is marked and shown.
#[tactic(auto, using(crate::proofs::Lists::first_then))]
pub(crate) fn add_seen(t: TypeId, facts: &mut Facts) -> Result<(), NoMemory>
    ensures { OnOk result (facts.new ≡ facts.old ++ seen t) }
{
    facts.mark(Item::Typ(t))?;
    facts.show(t)
}

/// Adds the fact that a type is instantiated, where kinds of members name constructors.
#[tactic(auto, using(crate::proofs::Lists::none_more))]
fn add_made(kinds: u32, t: TypeId, facts: &mut Facts) -> Result<(), NoMemory>
    ensures { OnOk result (facts.new ≡ facts.old ++ made_if (names_constructors kinds) t) }
{
    if names_constructors(kinds) {
        return facts.instantiate(t);
    }
    Ok(())
}

/// Adds the facts that an item is marked, and that reflection may reach it.
#[tactic(auto, using(crate::proofs::Lists::first_then))]
fn add_reach(item: Item, facts: &mut Facts) -> Result<(), NoMemory>
    ensures { OnOk result (facts.new ≡ facts.old ++ reach item) }
{
    facts.mark(item)?;
    facts.push(Fact::Reflected(item))
}

/// Adds these facts of each item.
fn add_all_reached(items: &[Item], facts: &mut Facts) -> Result<(), NoMemory>
    ensures { OnOk result (facts.new ≡ facts.old ++ flat_map reach items.now) }
{
    for item in items {
        add_reach(*item, facts)?;
    }
    Ok(())
}

/// The members of a type in a row that a site asks for: those of its kinds, and where all names are known, those with one of them.
fn asked_members(
    alloc: Global,
    tables: &FlowTables<'_>,
    site: &Site,
    t: RowAt,
) -> Result<Vec<Item>, NoMemory>
    requires { AreFlowTables tables.now }
    ensures { IfOk result (λ items. items.items ≡ asked_members (recs_in tables.now) site.now.names site.now.kinds t) }
{
    let marker = tables.annotated.marker;
    let mut items = Vec::new(alloc);
    match &site.names {
        None => add_members_by(alloc, marker, tables.nested, site.kinds, t, &mut items)?,
        Some(names) => add_named_members(
            alloc,
            marker,
            names.as_slice(),
            site.kinds,
            t,
            &mut items,
        )?,
    }
    Ok(items)
}

/// Adds the facts that the members of a type that a site asks for are marked, and that reflection may reach them.
#[tactic(auto, using(crate::proofs::Lists::none_more))]
fn add_reached(
    alloc: Global,
    tables: &FlowTables<'_>,
    site: &Site,
    t: TypeId,
    facts: &mut Facts,
) -> Result<(), NoMemory>
    requires { AreFlowTables tables.now }
    ensures { OnOk result (facts.new ≡ facts.old ++ reached_of (recs_in tables.now) site.now t) }
{
    let marker = tables.annotated.marker;
    match type_home(marker.tables.world.recs.as_slice(), t) {
        Err(error) => Err(error),
        Ok(None) => Ok(()),
        Ok(Some(at)) => {
            let items = asked_members(alloc, tables, site, at)?;
            add_all_reached(items.as_slice(), facts)?;
            Ok(())
        }
    }
}

/// Adds what a site asks for of a type that is known there.
#[tactic(auto, using(crate::proofs::Lists::three_put))]
pub(crate) fn add_asked_of(
    alloc: Global,
    tables: &FlowTables<'_>,
    site: &Site,
    t: TypeId,
    facts: &mut Facts,
) -> Result<(), NoMemory>
    requires { AreFlowTables tables.now }
    ensures { OnOk result (facts.new ≡ facts.old ++ asked_of (recs_in tables.now) site.now t) }
{
    add_seen(t, facts)?;
    add_made(site.kinds, t, facts)?;
    add_reached(alloc, tables, site, t, facts)
}
