//! All sites of a method.

ghost use Rattle.std.specs.Prelude.{◌≡◌, IfOk};
ghost use Rattle.std.specs.Option.{option_map};
ghost use Rattle.il_base.specs.world_model.Worlds.{type_id};
ghost use Rattle.rules.specs.declared.link_rules.row_at.RowAt.{RowAt};
ghost use Rattle.rules.specs.type_rules.Slots.{type_of_method};
ghost use Rattle.mark_parts.specs.mark_tables.Assemblies.{all_of};
ghost use Rattle.site_kinds.specs.Known.{IsAnnotated};
ghost use Rattle.rules.specs.site_rules.Bodies.{head_sites, sites_of_body};
ghost use Rattle.requirements.specs.Bodies.{flowed, IsBody};
ghost use Rattle.requirements.specs.Ties.{AreSites, IsItsFlow, plain_sites};

use crate::body::Body;
use crate::generic_sites::named::put_parts;
use crate::item_sites::heads::add_head;
use crate::uses::put_code;
use il_base::{MethodId, NoMemory, Seq, TypeId};
use mark_parts::mark_facts::parts::Parts;
use mark_parts::mark_facts::rows::type_at;
use rules::link_rules::RowAt;
use rules::site_rules::Site;
use site_kinds::known::Annotated;
use std::alloc::Global;
use type_tables::methods::{method_home, type_of_method};
use value_flow::Flow;
use value_flow::body_graph::methods::method_of;

/// The type that a method is in.
fn owner_at(annotated: &Annotated<'_>, at: RowAt) -> Result<Option<TypeId>, NoMemory>
    requires { IsAnnotated annotated.now }
    ensures { IfOk result (λ t. t ≡ option_map (λ (of : RowAt). type_id (all_of annotated.now.marker.now) of.asm of.row) (type_of_method (all_of annotated.now.marker.now) at)) }
{
    let marker = annotated.marker;
    match type_of_method(&marker.tables, at) {
        Err(error) => Err(error),
        Ok(None) => Ok(None),
        Ok(Some(of)) => match type_at(marker.tables.world.recs.as_slice(), of) {
            Err(error) => Err(error),
            Ok(t) => Ok(Some(t)),
        },
    }
}

/// The sites of a method's signature and locals.
fn head_sites(
    alloc: Global,
    annotated: &Annotated<'_>,
    owner: Option<TypeId>,
    at: RowAt,
) -> Result<Seq<Site>, NoMemory>
    requires { IsAnnotated annotated.now }
    ensures { IfOk result (λ sites. sites ≡ head_sites (all_of annotated.now.marker.now) owner at) }
{
    let mut parts = Parts::new(alloc);
    add_head(alloc, annotated.marker, at, &mut parts)?;
    let mut sites = Seq::new(alloc);
    put_parts(alloc, annotated, at.asm, owner, &parts, &mut sites)?;
    Ok(sites)
}

/// The sites of a method without a body, or whose body has no flow: those of its signature and locals.
#[tactic(auto, using(crate::proofs::Lists::none_more))]
pub fn plain_sites(
    alloc: Global,
    annotated: &Annotated<'_>,
    m: MethodId,
) -> Result<Seq<Site>, NoMemory>
    requires { IsAnnotated annotated.now }
    ensures { IfOk result (λ sites. sites ≡ plain_sites (all_of annotated.now.marker.now) m) }
{
    let marker = annotated.marker;
    let at = match method_home(marker.tables.world.recs.as_slice(), m) {
        Err(error) => return Err(error),
        Ok(None) => return Ok(Seq::new(alloc)),
        Ok(Some(at)) => at,
    };
    let owner = owner_at(annotated, at)?;
    let sites = head_sites(alloc, annotated, owner, at)?;
    Ok(sites)
}

/// The sites of a method whose flow is known: of its signature, its locals, and its code.
#[tactic(auto, unfolding(rules::specs::site_rules::Bodies::sites_of_body, rules::specs::site_rules::Bodies::code_sites))]
fn sites_of_body(alloc: Global, body: &Body<'_, '_, '_, '_>) -> Result<Seq<Site>, NoMemory>
    requires { IsBody body.now }
    ensures { IfOk result (λ sites. sites ≡ sites_of_body (flowed body.now)) }
{
    let method = body.method;
    let mut sites = head_sites(alloc, body.annotated, body.owner, body.at)?;
    put_code(alloc, body, method.body.code.as_slice(), &mut sites)?;
    Ok(sites)
}

/// The sites of a method of a world that a link gave, whose body, signature and locals have a reading: where its code asks for members
/// of a type, or for a type by its name. The flow is the method's. A method whose body has no flow has none of these.
pub fn sites(
    alloc: Global,
    annotated: &Annotated<'_>,
    flow: &Flow<'_>,
    m: MethodId,
) -> Result<Seq<Site>, NoMemory>
    requires annotated { IsAnnotated annotated.now }
    requires flow { IsItsFlow (all_of annotated.now.marker.now) m flow.now }
    ensures { IfOk result (AreSites (all_of annotated.now.marker.now) m flow.now.graph.now.depths) }
{
    let marker = annotated.marker;
    let world = marker.tables.world;
    let method = match method_of(world, m) {
        Err(error) => return Err(error),
        Ok(None) => return Err(NoMemory),
        Ok(Some(method)) => method,
    };
    let at = match method_home(world.recs.as_slice(), m) {
        Err(error) => return Err(error),
        Ok(None) => return Err(NoMemory),
        Ok(Some(at)) => at,
    };
    let owner = owner_at(annotated, at)?;
    let body = Body {
        annotated,
        method: &method,
        flow,
        id: m,
        at,
        owner,
    };
    let sites = sites_of_body(alloc, &body)?;
    Ok(sites)
}
