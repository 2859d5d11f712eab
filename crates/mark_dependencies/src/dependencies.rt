//! The types and members that a method or a field depends on.

ghost use Rattle.std.specs.Prelude.{◌≡◌, ◌++◌, ◌∷◌, map, Some, OnOk};
ghost use Rattle.std.specs.List.{flat_map};
ghost use Rattle.rules.specs.link_rules.Cycles.{listed};
ghost use Rattle.rules.specs.mark_rules.Annotations.{dependencies};
ghost use Rattle.rules.specs.mark_rules.Places.{marks_type};
ghost use Rattle.rules.specs.mark_rules.Dependencies.{dependency_members, dependency_facts, dependency_needs};
ghost use Rattle.attribute_values.specs.dependency_forms.Told.{dependency_told};
ghost use Rattle.mark_dependencies.specs.Lookups.{recs_in, told_facts, kept_of, IsLookup};

use crate::called::add_called;
use crate::kinds::add_of_kinds;
use crate::lookup::Lookup;
use crate::sought::sought_in;
use attribute_values::dependency_forms::dependencies::Dependencies;
use attribute_values::dependency_forms::dependency::Dependency;
use il_base::{Item, NoMemory};
use mark_parts::mark_facts::facts::Facts;
use mark_parts::mark_facts::kinds::Kind;
use mark_parts::mark_facts::rows::row_of;
use rules::link_rules::RowAt;
use std::alloc::Global;

/// Adds the members of a type that a dependency names, by their name or their kinds.
fn add_members(
    alloc: Global,
    lookup: &Lookup<'_, '_>,
    d: &Dependency,
    t: RowAt,
    facts: &mut Facts,
) -> Result<(), NoMemory>
    requires { IsLookup lookup.now }
    ensures { OnOk result (facts.new ≡ facts.old ++ dependency_members (recs_in lookup.now) (dependency_told d.now) t) }
{
    match &d.member {
        Some(name) => add_called(alloc, lookup, name.as_slice(), t, facts),
        None => add_of_kinds(alloc, lookup, d.kinds, t, facts),
    }
}

/// Marks a type, and puts its members that a dependency names at the end.
#[tactic(auto, using(crate::proofs::Lists::first_then))]
fn add_type(
    alloc: Global,
    lookup: &Lookup<'_, '_>,
    d: &Dependency,
    t: RowAt,
    facts: &mut Facts,
) -> Result<(), NoMemory>
    requires { IsLookup lookup.now }
    ensures { OnOk result (facts.new ≡ facts.old ++ kept_of (recs_in lookup.now) d.now t) }
{
    let marker = lookup.marker;
    facts.mark_row(marker.tables.world.recs.as_slice(), Kind::Type, t)?;
    add_members(alloc, lookup, d, t, facts)
}

/// Adds the facts that a dependency of a method or a field marks: the type, and the members that it names.
fn add_dependency(
    alloc: Global,
    lookup: &Lookup<'_, '_>,
    item: Item,
    at: RowAt,
    d: &Dependency,
    facts: &mut Facts,
) -> Result<(), NoMemory>
    requires { IsLookup lookup.now }
    ensures { OnOk result (facts.new ≡ facts.old ++ told_facts (recs_in lookup.now) item at d.now) }
{
    let found = sought_in(alloc, lookup, item, at, &d.sought)?;
    match found {
        Some(t) => {
            add_type(alloc, lookup, d, t, facts)?;
            Ok(())
        }
        None => Ok(()),
    }
}

/// Adds the facts that dependencies of a method or a field in a row mark.
pub fn add_dependency_facts(
    alloc: Global,
    lookup: &Lookup<'_, '_>,
    item: Item,
    at: RowAt,
    dependencies: &[Dependency],
    facts: &mut Facts,
) -> Result<(), NoMemory>
    requires { IsLookup lookup.now }
    ensures { OnOk result (facts.new ≡ facts.old ++ flat_map (told_facts (recs_in lookup.now) item at) dependencies.now) }
{
    for d in dependencies {
        add_dependency(alloc, lookup, item, at, d, facts)?;
    }
    Ok(())
}

/// Adds the needs of a marked item by its dependencies.
pub fn add_dependency_needs(
    alloc: Global,
    lookup: &Lookup<'_, '_>,
    item: Item,
    needed: &Dependencies,
    facts: &mut Facts,
) -> Result<(), NoMemory>
    requires lookup { IsLookup lookup.now }
    requires needed { needed.now ≡ dependencies (recs_in lookup.now) item }
    ensures { OnOk result (facts.new ≡ facts.old ++ dependency_needs (recs_in lookup.now) item) }
{
    let marker = lookup.marker;
    let all = marker.tables.world.recs.as_slice();
    let found = row_of(all, item)?;
    match found {
        Some(at) => {
            let listed = needed.as_slice();
            add_dependency_facts(alloc, lookup, item, at, listed, facts)?;
            Ok(())
        }
        None => Ok(()),
    }
}
