//! The needs of a marked item: the facts that follow from it.

ghost use Rattle.std.specs.Prelude.{◌≡◌, ◌++◌, OnOk};
ghost use Rattle.std.specs.List.{flat_map};
ghost use Rattle.rules.specs.link_rules.Cycles.{listed};
ghost use Rattle.rules.specs.mark_rules.Places.{row_of};
ghost use Rattle.rules.specs.mark_rules.Attributes.{attribute_needs};
ghost use Rattle.rules.specs.mark_rules.Dependencies.{dependency_needs};
ghost use Rattle.rules.specs.mark_rules.Roots.{waiting_facts};
ghost use Rattle.rules.specs.mark_rules.Marking.{row_needs, item_needs};
ghost use Rattle.mark_parts.specs.mark_tables.Assemblies.{all_of, IsMarker};
ghost use Rattle.mark_items.specs.Needs.{named_needs};

use crate::mark_needs::shown::add_item_shows;
use crate::mark_steps::row_needs::add_row_needs;
use crate::named_rules::NamedRules;
use il_base::{Item, NoMemory};
use mark_parts::mark_facts::facts::Facts;
use mark_parts::mark_facts::rows::row_of;
use mark_parts::mark_tables::marker::Marker;
use std::alloc::Global;

/// Adds the needs of the row of a marked item, where it is there.
#[tactic(auto, using(crate::proofs::Lists::none_more))]
fn add_row(
    alloc: Global,
    marker: &Marker<'_>,
    item: Item,
    facts: &mut Facts,
) -> Result<(), NoMemory>
    requires { IsMarker marker.now }
    ensures { OnOk result (facts.new ≡ facts.old ++ flat_map (row_needs (all_of marker.now) item) (listed (row_of (all_of marker.now) item))) }
{
    let Some(at) = row_of(marker.tables.world.recs.as_slice(), item)? else {
        return Ok(());
    };
    add_row_needs(alloc, marker, item, at, facts)
}

/// Adds the needs of the attributes of a marked item.
fn add_attributes<N: NamedRules>(
    alloc: Global,
    marker: &Marker<'_>,
    named: &N,
    item: Item,
    facts: &mut Facts,
) -> Result<(), NoMemory>
    requires { N.recs_of named.now ≡ all_of marker.now }
    ensures { OnOk result (facts.new ≡ facts.old ++ attribute_needs (all_of marker.now) item) }
{
    named.add_attributes(alloc, item, facts)
}

/// Adds the needs of the dependencies of a marked item.
fn add_dependencies<N: NamedRules>(
    alloc: Global,
    marker: &Marker<'_>,
    named: &N,
    item: Item,
    facts: &mut Facts,
) -> Result<(), NoMemory>
    requires { N.recs_of named.now ≡ all_of marker.now }
    ensures { OnOk result (facts.new ≡ facts.old ++ dependency_needs (all_of marker.now) item) }
{
    named.add_dependencies(alloc, item, facts)
}

/// Adds the facts that descriptors give once an item is marked.
fn add_waiting<N: NamedRules>(
    alloc: Global,
    marker: &Marker<'_>,
    named: &N,
    item: Item,
    facts: &mut Facts,
) -> Result<(), NoMemory>
    requires { N.recs_of named.now ≡ all_of marker.now }
    ensures { OnOk result (facts.new ≡ facts.old ++ waiting_facts (all_of marker.now) (N.roots_of named.now) item) }
{
    named.add_waiting(alloc, item, facts)
}

/// Adds the needs of a marked item by its attributes, its dependencies and descriptors.
#[tactic(auto, using(crate::proofs::Lists::three_put))]
fn add_named<N: NamedRules>(
    alloc: Global,
    marker: &Marker<'_>,
    named: &N,
    item: Item,
    facts: &mut Facts,
) -> Result<(), NoMemory>
    requires { N.recs_of named.now ≡ all_of marker.now }
    ensures { OnOk result (facts.new ≡ facts.old ++ named_needs (all_of marker.now) (N.roots_of named.now) item) }
{
    add_attributes(alloc, marker, named, item, facts)?;
    add_dependencies(alloc, marker, named, item, facts)?;
    add_waiting(alloc, marker, named, item, facts)
}

/// Adds the needs of a marked item: those of its row, of its attributes, dependencies and descriptors, and the types that it shows.
#[tactic(auto, using(crate::proofs::Lists::all_put))]
pub fn add_item_needs<N: NamedRules>(
    alloc: Global,
    marker: &Marker<'_>,
    named: &N,
    item: Item,
    facts: &mut Facts,
) -> Result<(), NoMemory>
    requires marker { IsMarker marker.now }
    requires named { N.recs_of named.now ≡ all_of marker.now }
    ensures { OnOk result (facts.new ≡ facts.old ++ item_needs (all_of marker.now) (N.roots_of named.now) item) }
{
    add_row(alloc, marker, item, facts)?;
    add_named(alloc, marker, named, item, facts)?;
    add_item_shows(alloc, marker, item, facts)
}
