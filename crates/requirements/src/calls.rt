//! Arguments for annotated parameters.

ghost use Rattle.std.specs.Prelude.{◌≡◌, ◌++◌, OnOk};
ghost use Rattle.std.specs.List.{flat_map};
ghost use Rattle.std.specs.Option.{option_copied};
ghost use Rattle.rules.specs.link_rules.Cycles.{listed};
ghost use Rattle.rules.specs.site_rules.Bodies.{argument_site, arguments_from, of_arguments, of_member, call_sites, creation_call_sites};
ghost use Rattle.requirements.specs.Bodies.{flowed, IsBody};
ghost use Rattle.requirements.specs.Calls.{called_sites};

use crate::body::Body;
use crate::generic_sites::asking::put_asking;
use crate::reflected::put_member;
use crate::values::value_from_top;
use il_base::world_model::MethodUse;
use il_base::{MethodId, NoMemory, Seq};
use rules::flow_rules::Called;
use rules::site_rules::{Site, Target};
use site_kinds::annotated::parameter_kinds;
use std::alloc::Global;
use value_flow::body_graph::signatures::called_in;

/// Puts the site of an argument at the end, where its parameter, counted from 0 without `this`, has an annotation. There are `n`
/// parameters.
fn put_argument(
    alloc: Global,
    body: &Body<'_, '_, '_, '_>,
    offset: u32,
    m: MethodId,
    n: u32,
    j: u32,
    sites: &mut Seq<Site>,
) -> Result<(), NoMemory>
    requires { IsBody body.now }
    ensures { OnOk result (sites.new ≡ sites.old ++ argument_site (flowed body.now) offset m n j) }
{
    let kinds = parameter_kinds(alloc, body.annotated, m, j)?;
    let place = body.place(offset)?;
    let sources = value_from_top(alloc, body, offset, n.saturating_sub(j))?;
    put_asking(place, Target::Param(m, j), kinds, sources, sites)
}

fn put_all(
    alloc: Global,
    body: &Body<'_, '_, '_, '_>,
    offset: u32,
    m: MethodId,
    n: u32,
    sites: &mut Seq<Site>,
) -> Result<(), NoMemory>
    requires { IsBody body.now }
    ensures { OnOk result (sites.new ≡ sites.old ++ arguments_from (flowed body.now) offset m n 0 n) }
{
    for j in 0..n {
        put_argument(alloc, body, offset, m, n, j, sites)?;
    }
    Ok(())
}

/// Puts the sites of the arguments of a method at the end.
#[tactic(auto, unfolding(rules::specs::site_rules::Bodies::of_arguments))]
fn put_arguments(
    alloc: Global,
    body: &Body<'_, '_, '_, '_>,
    offset: u32,
    m: MethodId,
    c: Called,
    sites: &mut Seq<Site>,
) -> Result<(), NoMemory>
    requires { IsBody body.now }
    ensures { OnOk result (sites.new ≡ sites.old ++ of_arguments (flowed body.now) offset m c) }
{
    let Ok(n) = u32::try_from(c.params) else {
        return Err(NoMemory);
    };
    put_all(alloc, body, offset, m, n, sites)
}

#[tactic(auto, using(crate::proofs::Lists::two_put))]
fn put_called(
    alloc: Global,
    body: &Body<'_, '_, '_, '_>,
    offset: u32,
    m: MethodId,
    c: Called,
    sites: &mut Seq<Site>,
) -> Result<(), NoMemory>
    requires { IsBody body.now }
    ensures { OnOk result (sites.new ≡ sites.old ++ called_sites (flowed body.now) offset m c) }
{
    put_arguments(alloc, body, offset, m, c, sites)?;
    put_member(alloc, body, offset, m, c, sites)
}

/// Puts the sites of a call at the end.
#[tactic(auto, using(crate::proofs::Lists::none_more))]
fn put_call(
    alloc: Global,
    body: &Body<'_, '_, '_, '_>,
    offset: u32,
    used: &MethodUse,
    sites: &mut Seq<Site>,
) -> Result<(), NoMemory>
    requires { IsBody body.now }
    ensures { OnOk result (sites.new ≡ sites.old ++ call_sites (flowed body.now) offset used.now) }
{
    let annotated = body.annotated;
    let marker = annotated.marker;
    match called_in(marker.tables.world, used) {
        Err(error) => Err(error),
        Ok(None) => Ok(()),
        Ok(Some(c)) => put_called(alloc, body, offset, used.method, c, sites),
    }
}

/// Puts the sites of the arguments of a constructor at the end.
#[tactic(auto, using(crate::proofs::Lists::none_more))]
fn put_creation(
    alloc: Global,
    body: &Body<'_, '_, '_, '_>,
    offset: u32,
    used: &MethodUse,
    sites: &mut Seq<Site>,
) -> Result<(), NoMemory>
    requires { IsBody body.now }
    ensures { OnOk result (sites.new ≡ sites.old ++ creation_call_sites (flowed body.now) offset used.now) }
{
    let annotated = body.annotated;
    let marker = annotated.marker;
    match called_in(marker.tables.world, used) {
        Err(error) => Err(error),
        Ok(None) => Ok(()),
        Ok(Some(c)) => put_arguments(alloc, body, offset, used.method, c, sites),
    }
}

/// Puts the sites of a call at the end; one that names no method has none.
#[tactic(auto, using(crate::proofs::Lists::none_more))]
pub(crate) fn put_call_if(
    alloc: Global,
    body: &Body<'_, '_, '_, '_>,
    offset: u32,
    used: Option<&MethodUse>,
    sites: &mut Seq<Site>,
) -> Result<(), NoMemory>
    requires { IsBody body.now }
    ensures { OnOk result (sites.new ≡ sites.old ++ flat_map (call_sites (flowed body.now) offset) (listed (option_copied used.entry))) }
{
    match used {
        None => Ok(()),
        Some(used) => put_call(alloc, body, offset, used, sites),
    }
}

/// Puts the sites of `newobj` at the end; one that names no method has none.
#[tactic(auto, using(crate::proofs::Lists::none_more))]
pub(crate) fn put_creation_if(
    alloc: Global,
    body: &Body<'_, '_, '_, '_>,
    offset: u32,
    used: Option<&MethodUse>,
    sites: &mut Seq<Site>,
) -> Result<(), NoMemory>
    requires { IsBody body.now }
    ensures { OnOk result (sites.new ≡ sites.old ++ flat_map (creation_call_sites (flowed body.now) offset) (listed (option_copied used.entry))) }
{
    match used {
        None => Ok(()),
        Some(used) => put_creation(alloc, body, offset, used, sites),
    }
}
