//! Types as generic arguments, and the sites of the arguments in them.

ghost use Rattle.std.specs.Prelude.{◌≡◌, ◌++◌, ◌∷◌, [], map, IfOk, OnOk};
ghost use Rattle.il_base.specs.declared.ids.Place.{Place};
ghost use Rattle.rules.specs.flow_rules.Sources.{own_parameter};
ghost use Rattle.mark_parts.specs.mark_tables.Assemblies.{all_of};
ghost use Rattle.site_kinds.specs.Known.{IsAnnotated};
ghost use Rattle.rules.specs.site_rules.Values.{asking};
ghost use Rattle.rules.specs.site_rules.Arguments.{known_type, argument, sites_from, type_argument_sites};
ghost use Rattle.requirements.specs.generic_sites.Asked.{target_of, asked_kinds};

use crate::generic_sites::asking::{only, put_asking};
use il_base::world_model::{AsmRec, TypeExpr, prim_type};
use il_base::{MethodId, NoMemory, Place, Seq, TypeId};
use rules::flow_rules::Source;
use rules::site_rules::{Site, Target};
use site_kinds::annotated::type_kinds;
use site_kinds::known::Annotated;
use site_kinds::reflection::method_kinds;
use std::alloc::Global;
use type_tables::member_search::bases::array_type;

/// Where a type is named.
#[derive(Clone, Copy, Debug, PartialEq, Eq)]
pub struct Within {
    /// The type whose generic parameters are open there.
    pub owner: Option<TypeId>,
    /// What names it.
    pub place: Place,
}

/// What has generic parameters.
#[derive(Clone, Copy, Debug, PartialEq, Eq)]
pub enum Generic {
    Type(TypeId),
    Method(MethodId),
}

fn known_type(t: Option<TypeId>) -> Source
    ensures { result ≡ known_type t }
{
    match t {
        None => Source::Opaque,
        Some(t) => Source::KnownType(t),
    }
}

fn own_parameter(owner: Option<TypeId>, n: u32) -> Source
    ensures { result ≡ own_parameter owner n }
{
    match owner {
        None => Source::Opaque,
        Some(t) => Source::TypeParam(t, n),
    }
}

/// The source that a type is as an argument, in the type `owner`.
#[tactic(auto, unfolding(rules::specs::site_rules::Arguments::argument))]
fn source_of(recs: &[AsmRec], owner: Option<TypeId>, e: &TypeExpr) -> Result<Source, NoMemory>
    ensures { IfOk result (λ s. (place : Place) → s ≡ (argument recs.now owner place e.now).known) }
{
    match e {
        TypeExpr::Prim(code) => match prim_type(recs, *code) {
            Err(error) => Err(error),
            Ok(t) => Ok(known_type(t)),
        },
        TypeExpr::Def(t) => Ok(Source::KnownType(*t)),
        TypeExpr::Inst(t, _) => Ok(Source::KnownType(*t)),
        TypeExpr::Array(_) => match array_type(recs) {
            Err(error) => Err(error),
            Ok(t) => Ok(known_type(t)),
        },
        TypeExpr::ByRef(_) => Ok(Source::Opaque),
        TypeExpr::Var(n) => Ok(own_parameter(owner, *n)),
        TypeExpr::MVar(n) => Ok(Source::MethodParam(*n)),
        TypeExpr::Mod { inner, .. } => {
            let s = source_of(recs, owner, inner.get())?;
            Ok(s)
        }
    }
}

fn target_of(generic: Generic, k: u32) -> Target
    ensures { result ≡ target_of generic k }
{
    match generic {
        Generic::Type(t) => Target::TypeArg(t, k),
        Generic::Method(m) => Target::MethodArg(m, k),
    }
}

/// What a generic parameter, counted from 0, asks for of its argument.
fn asked_kinds(
    alloc: Global,
    annotated: &Annotated<'_>,
    generic: Generic,
    k: u32,
) -> Result<u32, NoMemory>
    requires { IsAnnotated annotated.now }
    ensures { IfOk result (λ kinds. kinds ≡ asked_kinds (all_of annotated.now.marker.now) generic k) }
{
    match generic {
        Generic::Type(t) => type_kinds(alloc, annotated, t, k),
        Generic::Method(m) => method_kinds(alloc, annotated, m, k),
    }
}

/// Puts the site of an argument for a generic parameter, counted from 0, at the end, where the parameter has an annotation.
fn put_asked(
    alloc: Global,
    annotated: &Annotated<'_>,
    within: Within,
    generic: Generic,
    i: usize,
    e: &TypeExpr,
    sites: &mut Seq<Site>,
) -> Result<(), NoMemory>
    requires { IsAnnotated annotated.now }
    ensures { OnOk result (sites.new ≡ sites.old ++ asking within.place (target_of generic i) (asked_kinds (all_of annotated.now.marker.now) generic i) ((argument (all_of annotated.now.marker.now) within.owner within.place e.now).known ∷ [])) }
{
    let marker = annotated.marker;
    let Ok(k) = u32::try_from(i) else {
        return Err(NoMemory);
    };
    let kinds = asked_kinds(alloc, annotated, generic, k)?;
    let source = source_of(marker.tables.world.recs.as_slice(), within.owner, e)?;
    let sources = only(alloc, source)?;
    put_asking(within.place, target_of(generic, k), kinds, sources, sites)
}

/// Puts the sites of the arguments in a type at the end.
#[cycle(arguing)]
#[tactic(auto, using(crate::proofs::lemmas::generic_sites::Layers::arguing))]
pub fn put_type(
    alloc: Global,
    annotated: &Annotated<'_>,
    within: Within,
    e: &TypeExpr,
    sites: &mut Seq<Site>,
) -> Result<(), NoMemory>
    requires { IsAnnotated annotated.now }
    ensures { OnOk result (sites.new ≡ sites.old ++ type_argument_sites (all_of annotated.now.marker.now) within.owner within.place e.now) }
{
    match e {
        TypeExpr::Prim(_) => Ok(()),
        TypeExpr::Def(_) => Ok(()),
        TypeExpr::Inst(t, args) => {
            put_all(
                alloc,
                annotated,
                within,
                Generic::Type(*t),
                args.as_slice(),
                sites,
            )
        }
        TypeExpr::Array(inner) => put_type(alloc, annotated, within, inner.get(), sites),
        TypeExpr::ByRef(inner) => put_type(alloc, annotated, within, inner.get(), sites),
        TypeExpr::Var(_) => Ok(()),
        TypeExpr::MVar(_) => Ok(()),
        TypeExpr::Mod { inner, .. } => put_type(alloc, annotated, within, inner.get(), sites),
    }
}

/// Puts the sites of arguments for all generic parameters at the end, each with those of the arguments in it.
#[cycle(arguing)]
pub fn put_all(
    alloc: Global,
    annotated: &Annotated<'_>,
    within: Within,
    generic: Generic,
    args: &[TypeExpr],
    sites: &mut Seq<Site>,
) -> Result<(), NoMemory>
    requires { IsAnnotated annotated.now }
    ensures { OnOk result (sites.new ≡ sites.old ++ sites_from within.place (target_of generic) (asked_kinds (all_of annotated.now.marker.now) generic) 0 (map (argument (all_of annotated.now.marker.now) within.owner within.place) args.now)) }
{
    for (i, e) in args.iter().enumerate() {
        put_asked(alloc, annotated, within, generic, i, e, sites)?;
        put_type(alloc, annotated, within, e, sites)?;
    }
    Ok(())
}
