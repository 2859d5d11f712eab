//! The facts that follow from one fact.

ghost use Rattle.std.specs.Prelude.{◌≡◌, ◌++◌, OnOk};
ghost use Rattle.rules.specs.mark_rules.FlowMarks.{flow_marks};
ghost use Rattle.rules.specs.mark_rules.Marking.{item_needs, one};
ghost use Rattle.mark_parts.specs.mark_facts.Told.{fact_told};
ghost use Rattle.mark_parts.specs.mark_tables.Assemblies.{all_of, IsMarker};

use crate::items::add_item_needs;
use crate::mark_needs::reflected::add_reflected_shows;
use crate::mark_needs::shown::add_encloser_shown;
use crate::named_rules::NamedRules;
use il_base::{Item, NoMemory};
use mark_parts::mark_facts::fact::Fact;
use mark_parts::mark_facts::facts::Facts;
use mark_parts::mark_tables::marker::Marker;
use std::alloc::Global;

/// Adds what the flow of values in a marked item makes necessary.
fn add_flow<N: NamedRules>(
    alloc: Global,
    marker: &Marker<'_>,
    named: &N,
    item: Item,
    facts: &mut Facts,
) -> Result<(), NoMemory>
    requires { N.recs_of named.now ≡ all_of marker.now }
    ensures { OnOk result (facts.new ≡ facts.old ++ flow_marks (all_of marker.now) item) }
{
    named.add_flow(alloc, item, facts)
}

/// Adds what a marked item gives: its needs, and what the flow of values in it makes necessary.
#[tactic(auto, using(crate::proofs::Lists::two_put))]
fn add_marked<N: NamedRules>(
    alloc: Global,
    marker: &Marker<'_>,
    named: &N,
    item: Item,
    facts: &mut Facts,
) -> Result<(), NoMemory>
    requires marker { IsMarker marker.now }
    requires named { N.recs_of named.now ≡ all_of marker.now }
    ensures { OnOk result (facts.new ≡ facts.old ++ (item_needs (all_of marker.now) (N.roots_of named.now) item ++ flow_marks (all_of marker.now) item)) }
{
    add_item_needs(alloc, marker, named, item, facts)?;
    add_flow(alloc, marker, named, item, facts)
}

/// Adds the facts that a fact gives alone.
#[tactic(auto, unfolding(rules::specs::mark_rules::Marking::one), using(crate::proofs::Lists::none_more))]
pub fn add_one<N: NamedRules>(
    alloc: Global,
    marker: &Marker<'_>,
    named: &N,
    fact: Fact,
    facts: &mut Facts,
) -> Result<(), NoMemory>
    requires marker { IsMarker marker.now }
    requires named { N.recs_of named.now ≡ all_of marker.now }
    ensures { OnOk result (facts.new ≡ facts.old ++ one (all_of marker.now) (N.roots_of named.now) (fact_told fact)) }
{
    match fact {
        Fact::Marked(item) => add_marked(alloc, marker, named, item, facts),
        Fact::Instantiated(_) => Ok(()),
        Fact::Reflected(item) => add_reflected_shows(alloc, marker, item, facts),
        Fact::Shown(t) => add_encloser_shown(marker, t, facts),
    }
}
