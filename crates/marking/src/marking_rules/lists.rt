//! The facts that follow from the fact with a number, as numbers.

ghost use Rattle.std.specs.Prelude.{◌≡◌, ◌++◌, map, IfOk, OnOk};
ghost use Rattle.closure.specs.Facts.{facts_in};
ghost use Rattle.mark_parts.specs.mark_facts.Told.{fact_told};
ghost use Rattle.mark_parts.specs.mark_tables.Assemblies.{all_of, IsMarker};
ghost use Rattle.mark_numbers.specs.Starts.{AreNumbers};
ghost use Rattle.marking.specs.mark_known.Facts.{recs_in, IsKnown};
ghost use Rattle.marking.specs.marking_rules.Lists.{number_list, numbers_in, alone_list, joined_list, alone_by, joined_by};

use crate::mark_known::known::Known;
use crate::mark_known::together::add_with;
use il_base::{NoMemory, Seq};
use mark_items::named_rules::NamedRules;
use mark_items::one::add_one;
use mark_numbers::numbers::Numbers;
use mark_parts::mark_facts::fact::Fact;
use mark_parts::mark_facts::facts::Facts;
use mark_parts::mark_tables::marker::Marker;
use std::alloc::Global;

/// Adds the number of a fact, where its item or type is there.
fn add_number(numbers: &Numbers<'_>, fact: Fact, found: &mut Seq<u32>) -> Result<(), NoMemory>
    requires { AreNumbers numbers.now }
    ensures { OnOk result (found.new ≡ found.old ++ number_list numbers.now.world.now.recs (fact_told fact)) }
{
    match numbers.number_of(fact) {
        Ok(Some(n)) => found.push(n),
        Ok(None) => Ok(()),
        Err(error) => Err(error),
    }
}

/// The numbers of those of these facts whose item or type is there.
pub fn numbers_of(
    alloc: Global,
    numbers: &Numbers<'_>,
    facts: &[Fact],
) -> Result<Seq<u32>, NoMemory>
    requires { AreNumbers numbers.now }
    ensures { IfOk result (λ ns. ns ≡ numbers_in numbers.now.world.now.recs (map fact_told facts.now)) }
{
    let mut found = Seq::new(alloc);
    for fact in facts {
        add_number(numbers, *fact, &mut found)?;
    }
    Ok(found)
}

/// The numbers of the facts that follow from one fact alone.
fn brought_by_one<N: NamedRules>(
    alloc: Global,
    marker: &Marker<'_>,
    numbers: &Numbers<'_>,
    named: &N,
    fact: Fact,
) -> Result<Seq<u32>, NoMemory>
    requires marker { IsMarker marker.now }
    requires numbers { AreNumbers numbers.now }
    requires recs { numbers.now.world.now ≡ marker.now.tables.world.now }
    requires named { N.recs_of named.now ≡ all_of marker.now }
    ensures { IfOk result (λ ns. ns ≡ alone_by (all_of marker.now) (N.roots_of named.now) (fact_told fact)) }
{
    let mut facts = Facts::new(alloc);
    add_one(alloc, marker, named, fact, &mut facts)?;
    let found = numbers_of(alloc, numbers, facts.as_slice())?;
    Ok(found)
}

/// The numbers of the facts that follow from the fact with a number alone.
pub(crate) fn alone<N: NamedRules>(
    alloc: Global,
    marker: &Marker<'_>,
    numbers: &Numbers<'_>,
    named: &N,
    n: u32,
) -> Result<Seq<u32>, NoMemory>
    requires marker { IsMarker marker.now }
    requires numbers { AreNumbers numbers.now }
    requires recs { numbers.now.world.now ≡ marker.now.tables.world.now }
    requires named { N.recs_of named.now ≡ all_of marker.now }
    ensures { IfOk result (λ ns. ns ≡ alone_list marker.now.tables.world.now (N.roots_of named.now) n) }
{
    match numbers.fact_at(n) {
        Some(fact) => brought_by_one(alloc, marker, numbers, named, fact),
        None => Ok(Seq::new(alloc)),
    }
}

/// The numbers of the facts that follow from one fact with known ones.
fn brought_with(alloc: Global, k: &Known<'_>, fact: Fact) -> Result<Seq<u32>, NoMemory>
    requires { IsKnown k.now }
    ensures { IfOk result (λ ns. ns ≡ joined_by (recs_in k.now) (facts_in k.now.have.now) (fact_told fact)) }
{
    let mut facts = Facts::new(alloc);
    add_with(alloc, k, fact, &mut facts)?;
    let found = numbers_of(alloc, k.numbers, facts.as_slice())?;
    Ok(found)
}

/// The numbers of the facts that follow from the fact with a number and known ones.
pub(crate) fn joined(alloc: Global, k: &Known<'_>, n: u32) -> Result<Seq<u32>, NoMemory>
    requires known { IsKnown k.now }
    requires recs { k.now.numbers.now.world.now ≡ k.now.marker.now.tables.world.now }
    ensures { IfOk result (λ ns. ns ≡ joined_list k.now.marker.now.tables.world.now (facts_in k.now.have.now) n) }
{
    match k.numbers.fact_at(n) {
        Some(fact) => brought_with(alloc, k, fact),
        None => Ok(Seq::new(alloc)),
    }
}
