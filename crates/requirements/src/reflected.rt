//! What the members of reflection take, and the names that they look for.

ghost use Rattle.std.specs.Prelude.{◌≡◌, ◌++◌, ◌+◌, IfOk, OnOk};
ghost use Rattle.rules.specs.flow_rules.Counts.{one_if};
ghost use Rattle.rules.specs.site_rules.Bodies.{names_of_call, search_sites, creation_sites, name_sites, of_member};
ghost use Rattle.requirements.specs.Bodies.{flowed, IsBody};

use crate::body::Body;
use crate::generic_sites::asking::put_asking;
use crate::names::known_names;
use crate::values::value_from_top;
use il_base::{MethodId, NoMemory, Seq, Units};
use rules::flow_rules::Called;
use rules::mark_rules::member_kinds;
use rules::site_rules::{Site, Target};
use site_kinds::reflection::{is_creation, is_name_search, searched_kinds};
use std::alloc::Global;

fn params_in(c: Called) -> Result<u32, NoMemory>
    ensures { IfOk result (λ n. n ≡ c.params) }
{
    match u32::try_from(c.params) {
        Err(_) => Err(NoMemory),
        Ok(params) => Ok(params),
    }
}

/// How many values a call takes.
fn taken_by(c: Called) -> Result<u32, NoMemory>
    ensures { IfOk result (λ n. n ≡ c.params + one_if c.this) }
{
    let params = params_in(c)?;
    if !c.this {
        return Ok(params);
    }
    match params.checked_add(1) {
        None => Err(NoMemory),
        Some(taken) => Ok(taken),
    }
}

/// The name that a method takes as its first parameter, where it is known.
fn names_of_call(
    alloc: Global,
    body: &Body<'_, '_, '_, '_>,
    offset: u32,
    c: Called,
) -> Result<Option<Seq<Units>>, NoMemory>
    requires { IsBody body.now }
    ensures { IfOk result (λ names. names ≡ names_of_call (flowed body.now) offset c) }
{
    let params = params_in(c)?;
    if params == 0 {
        return Ok(None);
    }
    let sources = value_from_top(alloc, body, offset, params)?;
    let names = known_names(alloc, sources.as_slice())?;
    Ok(names)
}

/// Puts the site of a search for members at the end.
#[tactic(auto, using(crate::proofs::Lists::none_more))]
fn put_search(
    alloc: Global,
    body: &Body<'_, '_, '_, '_>,
    offset: u32,
    m: MethodId,
    c: Called,
    sites: &mut Seq<Site>,
) -> Result<(), NoMemory>
    requires { IsBody body.now }
    ensures { OnOk result (sites.new ≡ sites.old ++ search_sites (flowed body.now) offset m c) }
{
    let kinds = searched_kinds(body.annotated, m)?;
    if kinds == 0 {
        return Ok(());
    }
    let place = body.place(offset)?;
    let names = names_of_call(alloc, body, offset, c)?;
    let taken = taken_by(c)?;
    let sources = value_from_top(alloc, body, offset, taken)?;
    sites.push(Site {
        place,
        target: Target::This(m),
        kinds,
        names,
        sources,
    })
}

/// Puts the site of `Activator.CreateInstance(Type)` at the end.
#[tactic(auto, using(crate::proofs::Lists::none_more))]
fn put_creation(
    alloc: Global,
    body: &Body<'_, '_, '_, '_>,
    offset: u32,
    m: MethodId,
    c: Called,
    sites: &mut Seq<Site>,
) -> Result<(), NoMemory>
    requires { IsBody body.now }
    ensures { OnOk result (sites.new ≡ sites.old ++ creation_sites (flowed body.now) offset m c) }
{
    let creates = is_creation(body.annotated, m)?;
    if !creates {
        return Ok(());
    }
    if c.params != 1 {
        return Ok(());
    }
    let place = body.place(offset)?;
    let sources = value_from_top(alloc, body, offset, 1)?;
    put_asking(
        place,
        Target::Param(m, 0),
        member_kinds::PUBLIC_PARAMETERLESS_CONSTRUCTOR,
        sources,
        sites,
    )
}

/// Puts the site of `Type.GetType` at the end.
#[tactic(auto, using(crate::proofs::Lists::none_more))]
fn put_name_site(
    alloc: Global,
    body: &Body<'_, '_, '_, '_>,
    offset: u32,
    m: MethodId,
    c: Called,
    sites: &mut Seq<Site>,
) -> Result<(), NoMemory>
    requires { IsBody body.now }
    ensures { OnOk result (sites.new ≡ sites.old ++ name_sites (flowed body.now) offset m c) }
{
    let looks = is_name_search(body.annotated, m)?;
    if !looks {
        return Ok(());
    }
    let place = body.place(offset)?;
    let names = names_of_call(alloc, body, offset, c)?;
    let params = params_in(c)?;
    let sources = value_from_top(alloc, body, offset, params)?;
    sites.push(Site {
        place,
        target: Target::Name(m),
        kinds: 0,
        names,
        sources,
    })
}

/// Puts the sites of a call of a member of reflection at the end; there are none of any other method.
#[tactic(auto, unfolding(rules::specs::site_rules::Bodies::of_member), using(crate::proofs::Lists::two_put))]
pub(crate) fn put_member(
    alloc: Global,
    body: &Body<'_, '_, '_, '_>,
    offset: u32,
    m: MethodId,
    c: Called,
    sites: &mut Seq<Site>,
) -> Result<(), NoMemory>
    requires { IsBody body.now }
    ensures { OnOk result (sites.new ≡ sites.old ++ of_member (flowed body.now) offset m c) }
{
    put_search(alloc, body, offset, m, c, sites)?;
    put_creation(alloc, body, offset, m, c, sites)?;
    put_name_site(alloc, body, offset, m, c, sites)
}
