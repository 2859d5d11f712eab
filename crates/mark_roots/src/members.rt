//! The members of a type that an element keeps.

ghost use Rattle.std.specs.Prelude.{◌≡◌, ◌++◌, OnOk};
ghost use Rattle.std.specs.List.{flat_map};
ghost use Rattle.rules.specs.mark_rules.Roots.{member_by, root_members};
ghost use Rattle.mark_roots.specs.Lookups.{recs_in, IsLookup};

use crate::fields::add_fields;
use crate::lookup::Lookup;
use crate::mapped::{add_events_called, add_properties_called};
use crate::methods::add_methods;
use descriptor_file::{Root, RootMember, member};
use il_base::NoMemory;
use mark_members::mark_whole::members::add_preserved;
use mark_parts::mark_facts::facts::Facts;
use rules::link_rules::RowAt;
use std::alloc::Global;

/// Adds the members that a member element names.
fn add_member(
    alloc: Global,
    lookup: &Lookup<'_, '_>,
    t: RowAt,
    r: &RootMember,
    facts: &mut Facts,
) -> Result<(), NoMemory>
    requires { IsLookup lookup.now }
    ensures { OnOk result (facts.new ≡ facts.old ++ member_by (recs_in lookup.now) t r.now) }
{
    if r.kind == member::METHOD {
        return add_methods(alloc, lookup, t, r, facts);
    }
    if r.kind == member::FIELD {
        return add_fields(alloc, lookup, t, r, facts);
    }
    if r.kind == member::PROPERTY {
        return add_properties_called(alloc, lookup.marker, t, r.text.as_slice(), facts);
    }
    add_events_called(alloc, lookup.marker, t, r.text.as_slice(), facts)
}

/// Adds the members that member elements name.
fn add_members(
    alloc: Global,
    lookup: &Lookup<'_, '_>,
    t: RowAt,
    members: &[RootMember],
    facts: &mut Facts,
) -> Result<(), NoMemory>
    requires { IsLookup lookup.now }
    ensures { OnOk result (facts.new ≡ facts.old ++ flat_map (member_by (recs_in lookup.now) t) members.now) }
{
    for r in members {
        add_member(alloc, lookup, t, r, facts)?;
    }
    Ok(())
}

/// Adds the members of a type that an element keeps: those that its `preserve` names, then those that it lists.
#[tactic(auto, using(crate::proofs::Lists::two_put))]
pub(crate) fn add_root_members(
    alloc: Global,
    lookup: &Lookup<'_, '_>,
    t: RowAt,
    r: &Root,
    facts: &mut Facts,
) -> Result<(), NoMemory>
    requires { IsLookup lookup.now }
    ensures { OnOk result (facts.new ≡ facts.old ++ root_members (recs_in lookup.now) t r.now) }
{
    add_preserved(alloc, lookup.marker, t, r.preserve, facts)?;
    add_members(alloc, lookup, t, r.members.as_slice(), facts)
}
