//! The facts that hold at the start: those of the items of the core library, of the entry method and of descriptors.

ghost use Rattle.std.specs.Prelude.{◌≡◌, ◌++◌, IfOk, OnOk};
ghost use Rattle.mark_parts.specs.mark_tables.Assemblies.{all_of};
ghost use Rattle.mark_numbers.specs.Starts.{AreNumbers};
ghost use Rattle.marking.specs.Starting.{core_fact, core_facts, first_facts, start_list};

use crate::marking_rules::lists::numbers_of;
use il_base::world_model::{AsmRec, World};
use il_base::{Item, NoMemory, Seq};
use mark_items::named_rules::NamedRules;
use mark_numbers::numbers::Numbers;
use mark_parts::mark_facts::facts::Facts;
use mark_parts::mark_facts::rows::is_core;
use mark_parts::mark_tables::marker::Marker;
use rules::link_rules::RowAt;
use std::alloc::Global;

/// Adds the fact that an item is marked, where it is the core library's.
fn add_if_core(all: &[AsmRec], item: Item, facts: &mut Facts) -> Result<(), NoMemory>
    ensures { OnOk result (facts.new ≡ facts.old ++ core_fact all.now item) }
{
    match is_core(all, item) {
        Ok(true) => facts.mark(item),
        Ok(false) => Ok(()),
        Err(error) => Err(error),
    }
}

/// Adds the fact that the items of the core library are marked.
fn add_core(world: &World, facts: &mut Facts) -> Result<(), NoMemory>
    ensures { OnOk result (facts.new ≡ facts.old ++ core_facts world.now) }
{
    let all = world.recs.as_slice();
    for home in world.homes.as_slice() {
        add_if_core(all, home.item, facts)?;
    }
    Ok(())
}

/// Adds the facts that hold at the start.
#[tactic(auto, using(crate::proofs::Lists::two_put))]
fn add_first<N: NamedRules>(
    alloc: Global,
    marker: &Marker<'_>,
    named: &N,
    entry: Option<RowAt>,
    facts: &mut Facts,
) -> Result<(), NoMemory>
    requires { N.recs_of named.now ≡ all_of marker.now }
    ensures { OnOk result (facts.new ≡ facts.old ++ first_facts marker.now.tables.world.now entry (N.roots_of named.now)) }
{
    add_core(marker.tables.world, facts)?;
    named.add_start(alloc, entry, facts)
}

/// The numbers of the facts that hold at the start.
pub(crate) fn start_numbers<N: NamedRules>(
    alloc: Global,
    marker: &Marker<'_>,
    numbers: &Numbers<'_>,
    named: &N,
    entry: Option<RowAt>,
) -> Result<Seq<u32>, NoMemory>
    requires numbers { AreNumbers numbers.now }
    requires world { numbers.now.world.now ≡ marker.now.tables.world.now }
    requires named { N.recs_of named.now ≡ all_of marker.now }
    ensures { IfOk result (λ ns. ns ≡ start_list marker.now.tables.world.now entry (N.roots_of named.now)) }
{
    let mut facts = Facts::new(alloc);
    add_first(alloc, marker, named, entry, &mut facts)?;
    let found = numbers_of(alloc, numbers, facts.as_slice())?;
    Ok(found)
}
