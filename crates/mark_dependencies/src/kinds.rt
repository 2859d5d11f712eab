//! Members of a type that kinds name.

ghost use Rattle.std.specs.Prelude.{◌≡◌, ◌++◌, map, OnOk};
ghost use Rattle.rules.specs.mark_rules.Facts.Fact.{marked};
ghost use Rattle.rules.specs.mark_rules.Dependencies.{members_of_kinds};
ghost use Rattle.rules.specs.mark_rules.Members.{members_by};
ghost use Rattle.mark_dependencies.specs.Names.{made_by};
ghost use Rattle.mark_dependencies.specs.Lookups.{recs_in, IsLookup};

use crate::lookup::Lookup;
use il_base::world_model::AsmRec;
use il_base::{Item, NoMemory};
use mark_members::mark_kinds::methods::constructors_by;
use mark_members::members::add_members_by;
use mark_parts::mark_facts::facts::Facts;
use rules::link_rules::RowAt;
use std::alloc::Global;

/// Makes a type instantiated, where it has such constructors.
#[tactic(auto, using(crate::proofs::Lists::none_more))]
fn add_made(
    all: &[AsmRec],
    t: RowAt,
    constructors: &[RowAt],
    facts: &mut Facts,
) -> Result<(), NoMemory>
    ensures { OnOk result (facts.new ≡ facts.old ++ made_by all.now t constructors.now) }
{
    match constructors {
        [] => Ok(()),
        [_first, _rest @ ..] => {
            facts.instantiate_row(all, t)?;
            Ok(())
        }
    }
}

/// Marks items.
fn mark_items(items: &[Item], facts: &mut Facts) -> Result<(), NoMemory>
    ensures { OnOk result (facts.new ≡ facts.old ++ map marked items.now) }
{
    for item in items {
        facts.mark(*item)?;
    }
    Ok(())
}

/// Marks the members of a type that kinds name.
fn add_marked(
    alloc: Global,
    lookup: &Lookup<'_, '_>,
    kinds: u32,
    t: RowAt,
    facts: &mut Facts,
) -> Result<(), NoMemory>
    requires { IsLookup lookup.now }
    ensures { OnOk result (facts.new ≡ facts.old ++ map marked (members_by (recs_in lookup.now) kinds t)) }
{
    let mut items = Vec::new(alloc);
    add_members_by(alloc, lookup.marker, lookup.nested, kinds, t, &mut items)?;
    mark_items(items.as_slice(), facts)
}

/// Adds the members of a type that kinds name, marked; where a constructor is among them, the type is instantiated.
#[tactic(auto, using(crate::proofs::OfKinds::of_kinds))]
pub(crate) fn add_of_kinds(
    alloc: Global,
    lookup: &Lookup<'_, '_>,
    kinds: u32,
    t: RowAt,
    facts: &mut Facts,
) -> Result<(), NoMemory>
    requires { IsLookup lookup.now }
    ensures { OnOk result (facts.new ≡ facts.old ++ members_of_kinds (recs_in lookup.now) kinds t) }
{
    let marker = lookup.marker;
    let constructors = constructors_by(alloc, marker, kinds, t)?;
    add_made(
        marker.tables.world.recs.as_slice(),
        t,
        constructors.as_slice(),
        facts,
    )?;
    add_marked(alloc, lookup, kinds, t, facts)
}
