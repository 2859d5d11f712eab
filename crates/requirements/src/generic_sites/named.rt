//! What the parts of items name.

ghost use Rattle.std.specs.Prelude.{◌≡◌, ◌++◌, OnOk};
ghost use Rattle.mark_parts.specs.mark_facts.Told.{named_told, part_told};
ghost use Rattle.mark_parts.specs.mark_tables.Assemblies.{all_of};
ghost use Rattle.site_kinds.specs.Known.{IsAnnotated};
ghost use Rattle.rules.specs.site_rules.Arguments.{of_method, of_named, part_sites, sites_of_parts, type_argument_sites};

use crate::generic_sites::arguments::{Generic, Within, put_all, put_type};
use il_base::world_model::{FieldUse, Known, MethodUse};
use il_base::{NoMemory, Place, Seq, TypeId};
use mark_parts::mark_facts::part::{Named, Part};
use mark_parts::mark_facts::parts::Parts;
use rules::site_rules::Site;
use site_kinds::known::Annotated;
use std::alloc::Global;

/// Puts the sites of the arguments of a method and of its owner at the end.
#[tactic(auto, using(crate::proofs::lemmas::generic_sites::Lists::two_put))]
pub fn put_method(
    alloc: Global,
    annotated: &Annotated<'_>,
    within: Within,
    used: &MethodUse,
    sites: &mut Seq<Site>,
) -> Result<(), NoMemory>
    requires { IsAnnotated annotated.now }
    ensures { OnOk result (sites.new ≡ sites.old ++ of_method (all_of annotated.now.marker.now) within.owner within.place used.now) }
{
    put_type(alloc, annotated, within, &used.owner, sites)?;
    put_all(
        alloc,
        annotated,
        within,
        Generic::Method(used.method),
        used.args.as_slice(),
        sites,
    )
}

/// Puts the sites of the arguments of a field's owner at the end.
pub fn put_field(
    alloc: Global,
    annotated: &Annotated<'_>,
    within: Within,
    used: &FieldUse,
    sites: &mut Seq<Site>,
) -> Result<(), NoMemory>
    requires { IsAnnotated annotated.now }
    ensures { OnOk result (sites.new ≡ sites.old ++ type_argument_sites (all_of annotated.now.marker.now) within.owner within.place used.now.owner) }
{
    put_type(alloc, annotated, within, &used.owner, sites)
}

/// Puts the sites of what a part names at the end.
fn put_named(
    alloc: Global,
    annotated: &Annotated<'_>,
    within: Within,
    named: &Named,
    sites: &mut Seq<Site>,
) -> Result<(), NoMemory>
    requires { IsAnnotated annotated.now }
    ensures { OnOk result (sites.new ≡ sites.old ++ of_named (all_of annotated.now.marker.now) within.owner within.place (named_told named.now)) }
{
    match named {
        Named::Type(e) => put_type(alloc, annotated, within, e, sites),
        Named::Method(used) => put_method(alloc, annotated, within, used, sites),
        Named::Field(used) => put_field(alloc, annotated, within, used, sites),
    }
}

/// Puts the sites of a part at the end; a bad part has none.
#[tactic(auto, using(crate::proofs::lemmas::generic_sites::Lists::none_more))]
fn put_part(
    alloc: Global,
    annotated: &Annotated<'_>,
    asm: u32,
    owner: Option<TypeId>,
    part: &Part,
    sites: &mut Seq<Site>,
) -> Result<(), NoMemory>
    requires { IsAnnotated annotated.now }
    ensures { OnOk result (sites.new ≡ sites.old ++ part_sites (all_of annotated.now.marker.now) asm owner (part_told part.now)) }
{
    let within = Within {
        owner,
        place: Place {
            asm,
            token: part.token,
            offset: part.at,
        },
    };
    match &part.named {
        Known::Good(named) => put_named(alloc, annotated, within, named, sites),
        Known::Bad(_) => Ok(()),
    }
}

/// Puts the sites of parts of an item at the end. The item is of the assembly `asm`, in the type `owner`.
#[tactic(auto, unfolding(rules::specs::site_rules::Arguments::sites_of_parts))]
pub fn put_parts(
    alloc: Global,
    annotated: &Annotated<'_>,
    asm: u32,
    owner: Option<TypeId>,
    parts: &Parts,
    sites: &mut Seq<Site>,
) -> Result<(), NoMemory>
    requires { IsAnnotated annotated.now }
    ensures { OnOk result (sites.new ≡ sites.old ++ sites_of_parts (all_of annotated.now.marker.now) asm owner parts.now) }
{
    for part in parts.as_slice() {
        put_part(alloc, annotated, asm, owner, part, sites)?;
    }
    Ok(())
}
