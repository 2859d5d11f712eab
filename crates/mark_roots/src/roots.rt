//! The facts that elements of descriptors give at the start, and all facts at the start.

ghost use Rattle.std.specs.Prelude.{◌≡◌, ◌++◌, ◌∷◌, IfOk, OnOk};
ghost use Rattle.std.specs.List.{flat_map};
ghost use Rattle.rules.specs.link_rules.Cycles.{listed};
ghost use Rattle.rules.specs.mark_rules.Places.{marks_type};
ghost use Rattle.rules.specs.mark_rules.Roots.{root_type, root_members, root_facts, start_facts};
ghost use Rattle.mark_roots.specs.Lookups.{recs_in, root_kept, IsLookup};

use crate::lookup::Lookup;
use crate::members::add_root_members;
use descriptor_file::Root;
use il_base::NoMemory;
use mark_members::mark_starts::first::add_first;
use mark_members::mark_starts::inputs::{add_input, input_named};
use mark_parts::mark_facts::facts::Facts;
use mark_parts::mark_facts::kinds::Kind;
use rules::link_rules::RowAt;
use std::alloc::Global;

/// The type that an element names.
pub(crate) fn root_type(lookup: &Lookup<'_, '_>, r: &Root) -> Result<Option<RowAt>, NoMemory>
    requires { IsLookup lookup.now }
    ensures { IfOk result (λ at. at ≡ root_type (recs_in lookup.now) r.now) }
{
    let marker = lookup.marker;
    let types = lookup.types;
    let all = marker.tables.world.recs.as_slice();
    match input_named(all, r.asm.as_slice()) {
        Ok(Some(asm)) => match &r.typ {
            Some(name) => Ok(types.get(all, asm, name.as_slice())),
            None => Ok(None),
        },
        Ok(None) => Ok(None),
        Err(error) => Err(error),
    }
}

/// Marks a type, and puts the members that an element keeps at the end.
#[tactic(auto, using(crate::proofs::Lists::first_then))]
fn add_type(
    alloc: Global,
    lookup: &Lookup<'_, '_>,
    t: RowAt,
    r: &Root,
    facts: &mut Facts,
) -> Result<(), NoMemory>
    requires { IsLookup lookup.now }
    ensures { OnOk result (facts.new ≡ facts.old ++ marks_type (recs_in lookup.now) t ∷ root_members (recs_in lookup.now) t r.now) }
{
    let marker = lookup.marker;
    facts.mark_row(marker.tables.world.recs.as_slice(), Kind::Type, t)?;
    add_root_members(alloc, lookup, t, r, facts)
}

/// Adds the facts that an element gives which names a type.
#[tactic(auto, using(crate::proofs::Lists::none_more))]
fn add_required(
    alloc: Global,
    lookup: &Lookup<'_, '_>,
    r: &Root,
    facts: &mut Facts,
) -> Result<(), NoMemory>
    requires { IsLookup lookup.now }
    ensures { OnOk result (facts.new ≡ facts.old ++ flat_map (root_kept (recs_in lookup.now) r.now) (listed (root_type (recs_in lookup.now) r.now))) }
{
    match root_type(lookup, r) {
        Ok(Some(t)) => add_type(alloc, lookup, t, r, facts),
        Ok(None) => Ok(()),
        Err(error) => Err(error),
    }
}

/// Adds the facts that an element gives at the start. An assembly without a type is kept whole. A type is kept with the members
/// that the element names, unless the element waits for the type.
#[tactic(auto, unfolding(rules::specs::mark_rules::Roots::root_facts), using(crate::proofs::Lists::none_more))]
pub fn add_root(
    alloc: Global,
    lookup: &Lookup<'_, '_>,
    r: &Root,
    facts: &mut Facts,
) -> Result<(), NoMemory>
    requires { IsLookup lookup.now }
    ensures { OnOk result (facts.new ≡ facts.old ++ root_facts (recs_in lookup.now) r.now) }
{
    match &r.typ {
        None => add_input(alloc, lookup.marker, r.asm.as_slice(), facts),
        Some(_) => {
            if r.required {
                return add_required(alloc, lookup, r, facts);
            }
            Ok(())
        }
    }
}

/// Adds the facts that elements give at the start.
fn add_roots(
    alloc: Global,
    lookup: &Lookup<'_, '_>,
    roots: &[Root],
    facts: &mut Facts,
) -> Result<(), NoMemory>
    requires { IsLookup lookup.now }
    ensures { OnOk result (facts.new ≡ facts.old ++ flat_map (root_facts (recs_in lookup.now)) roots.now) }
{
    for r in roots {
        add_root(alloc, lookup, r, facts)?;
    }
    Ok(())
}

/// Adds the facts that hold before any rule is used: on the primary assembly, its `<Module>`, the entry method, and the items that
/// descriptors keep at the start.
#[tactic(auto, unfolding(rules::specs::mark_rules::Roots::start_facts), using(crate::proofs::Lists::two_put))]
pub fn add_start(
    alloc: Global,
    lookup: &Lookup<'_, '_>,
    entry: Option<RowAt>,
    roots: &[Root],
    facts: &mut Facts,
) -> Result<(), NoMemory>
    requires { IsLookup lookup.now }
    ensures { OnOk result (facts.new ≡ facts.old ++ start_facts (recs_in lookup.now) entry roots.now) }
{
    add_first(lookup.marker, entry, facts)?;
    add_roots(alloc, lookup, roots, facts)
}
