//! The facts that follow from one fact with all known items.

ghost use Rattle.std.specs.Prelude.{◌≡◌, ◌++◌, IfOk, OnOk};
ghost use Rattle.std.specs.List.{flat_map};
ghost use Rattle.rules.specs.link_rules.Members.{type_home};
ghost use Rattle.rules.specs.link_rules.Cycles.{listed};
ghost use Rattle.base_laws.specs.known_laws.Known.{type_with, made_with, fact_with};
ghost use Rattle.mark_parts.specs.mark_facts.Told.{fact_told};
ghost use Rattle.marking.specs.mark_known.Facts.{recs_in, knows, IsKnown, given_by, slots_and_rows};

use crate::mark_known::interfaces::add_with_interfaces;
use crate::mark_known::known::Known;
use crate::mark_known::lineage::lineage;
use crate::mark_known::rows::add_with_rows;
use crate::mark_known::slots::{Rule, add_with_slots};
use il_base::{Item, NoMemory, TypeId};
use mark_parts::mark_facts::fact::Fact;
use mark_parts::mark_facts::facts::Facts;
use rules::link_rules::RowAt;
use std::alloc::Global;
use type_tables::member_search::homes::type_home;

/// Adds the facts that a type gives with the slots of these types.
#[tactic(auto, using(crate::proofs::lemmas::mark_known::Lists::two_put))]
fn add_by(
    alloc: Global,
    k: &Known<'_>,
    rule: Rule,
    t: RowAt,
    types: &[RowAt],
    facts: &mut Facts,
) -> Result<(), NoMemory>
    requires { IsKnown k.now }
    ensures { OnOk result (facts.new ≡ facts.old ++ given_by k.now rule t types.now) }
{
    add_with_slots(alloc, k, rule, t, types, facts)?;
    add_with_rows(alloc, k, rule, t, types, facts)
}

/// Adds the facts that a type gives with slots.
fn add_calls(
    alloc: Global,
    k: &Known<'_>,
    rule: Rule,
    t: RowAt,
    facts: &mut Facts,
) -> Result<(), NoMemory>
    requires { IsKnown k.now }
    ensures { OnOk result (facts.new ≡ facts.old ++ slots_and_rows k.now rule t) }
{
    let types = lineage(alloc, k.marker, t)?;
    add_by(alloc, k, rule, t, types.as_slice(), facts)?;
    Ok(())
}

/// Adds the facts that a marked type gives.
#[tactic(auto, using(crate::proofs::lemmas::mark_known::Lists::three_put))]
fn add_type(alloc: Global, k: &Known<'_>, t: RowAt, facts: &mut Facts) -> Result<(), NoMemory>
    requires { IsKnown k.now }
    ensures { OnOk result (facts.new ≡ facts.old ++ type_with (recs_in k.now) (knows k.now) t) }
{
    add_with_interfaces(alloc, k, t, facts)?;
    add_calls(alloc, k, Rule::Fills, t, facts)
}

/// Adds the facts that a marked type gives, where it is there.
#[tactic(auto, using(crate::proofs::lemmas::mark_known::Lists::none_more))]
fn add_for_type(alloc: Global, k: &Known<'_>, id: TypeId, facts: &mut Facts) -> Result<(), NoMemory>
    requires { IsKnown k.now }
    ensures { OnOk result (facts.new ≡ facts.old ++ flat_map (type_with (recs_in k.now) (knows k.now)) (listed (type_home (recs_in k.now) id))) }
{
    let marker = k.marker;
    let Some(t) = type_home(marker.tables.world.recs.as_slice(), id)? else {
        return Ok(());
    };
    add_type(alloc, k, t, facts)
}

/// Adds the facts that an instantiated type gives, where it is there.
#[tactic(auto, using(crate::proofs::lemmas::mark_known::Lists::none_more))]
fn add_for_made(alloc: Global, k: &Known<'_>, id: TypeId, facts: &mut Facts) -> Result<(), NoMemory>
    requires { IsKnown k.now }
    ensures { OnOk result (facts.new ≡ facts.old ++ flat_map (made_with (recs_in k.now) (knows k.now)) (listed (type_home (recs_in k.now) id))) }
{
    let marker = k.marker;
    let Some(t) = type_home(marker.tables.world.recs.as_slice(), id)? else {
        return Ok(());
    };
    add_calls(alloc, k, Rule::Runs, t, facts)
}

/// Adds the facts that a fact gives with known items.
#[tactic(auto, unfolding(base_laws::specs::known_laws::Known::fact_with), using(crate::proofs::lemmas::mark_known::Lists::none_more))]
pub fn add_with(alloc: Global, k: &Known<'_>, fact: Fact, facts: &mut Facts) -> Result<(), NoMemory>
    requires { IsKnown k.now }
    ensures { OnOk result (facts.new ≡ facts.old ++ fact_with (recs_in k.now) (knows k.now) (fact_told fact)) }
{
    match fact {
        Fact::Marked(Item::Typ(t)) => add_for_type(alloc, k, t, facts),
        Fact::Instantiated(t) => add_for_made(alloc, k, t, facts),
        Fact::Marked(Item::Asm(_)) => Ok(()),
        Fact::Marked(Item::Method(_)) => Ok(()),
        Fact::Marked(Item::Field(_)) => Ok(()),
        Fact::Marked(Item::Prop(_)) => Ok(()),
        Fact::Marked(Item::Event(_)) => Ok(()),
        Fact::Marked(Item::Impl(_)) => Ok(()),
        Fact::Reflected(_) => Ok(()),
        Fact::Shown(_) => Ok(()),
    }
}
