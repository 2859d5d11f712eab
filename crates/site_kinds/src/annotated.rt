//! The kinds of members that annotations promise.

ghost use Rattle.std.specs.Prelude.{◌≡◌, IfOk};
ghost use Rattle.mark_parts.specs.mark_tables.Assemblies.{all_of};
ghost use Rattle.site_kinds.specs.Known.{IsAnnotated};
ghost use Rattle.rules.specs.site_rules.Kinds.{field_home, parameter_kinds, return_kinds, field_kinds, type_kinds, own_method_kinds, promised};

use crate::annotation_flags::flags::flags_of;
use crate::annotation_flags::holder::Holder;
use crate::known::Annotated;
use il_base::world_model::AsmRec;
use il_base::{FieldId, Item, MethodId, NoMemory, TypeId};
use mark_parts::mark_facts::rows::row_of;
use rules::flow_rules::Source;
use rules::link_rules::RowAt;
use std::alloc::Global;
use type_tables::member_search::homes::type_home;
use type_tables::methods::method_home;

/// The kinds of a parameter of a method, counted from 0 without `this`.
#[tactic(auto, unfolding(rules::specs::site_rules::Kinds::parameter_kinds))]
pub fn parameter_kinds(
    alloc: Global,
    annotated: &Annotated<'_>,
    m: MethodId,
    n: u32,
) -> Result<u32, NoMemory>
    requires { IsAnnotated annotated.now }
    ensures { IfOk result (λ kinds. kinds ≡ parameter_kinds (all_of annotated.now.marker.now) m n) }
{
    let marker = annotated.marker;
    match method_home(marker.tables.world.recs.as_slice(), m) {
        Err(error) => Err(error),
        Ok(None) => Ok(0),
        Ok(Some(at)) => flags_of(
            alloc,
            annotated.marker,
            annotated.tables,
            Holder::Parameter(at, n),
        ),
    }
}

/// The kinds of what a method returns.
#[tactic(auto, unfolding(rules::specs::site_rules::Kinds::return_kinds))]
pub fn return_kinds(alloc: Global, annotated: &Annotated<'_>, m: MethodId) -> Result<u32, NoMemory>
    requires { IsAnnotated annotated.now }
    ensures { IfOk result (λ kinds. kinds ≡ return_kinds (all_of annotated.now.marker.now) m) }
{
    let marker = annotated.marker;
    match method_home(marker.tables.world.recs.as_slice(), m) {
        Err(error) => Err(error),
        Ok(None) => Ok(0),
        Ok(Some(at)) => flags_of(
            alloc,
            annotated.marker,
            annotated.tables,
            Holder::Return(at),
        ),
    }
}

/// The assembly and row of a field.
#[tactic(auto, unfolding(rules::specs::mark_rules::Places::row_of))]
pub(crate) fn field_home(all: &[AsmRec], f: FieldId) -> Result<Option<RowAt>, NoMemory>
    ensures { IfOk result (λ at. at ≡ field_home all.now f) }
{
    match row_of(all, Item::Field(f)) {
        Err(error) => Err(error),
        Ok(at) => Ok(at),
    }
}

/// The kinds of a field.
#[tactic(auto, unfolding(rules::specs::site_rules::Kinds::field_kinds))]
pub fn field_kinds(alloc: Global, annotated: &Annotated<'_>, f: FieldId) -> Result<u32, NoMemory>
    requires { IsAnnotated annotated.now }
    ensures { IfOk result (λ kinds. kinds ≡ field_kinds (all_of annotated.now.marker.now) f) }
{
    let marker = annotated.marker;
    match field_home(marker.tables.world.recs.as_slice(), f) {
        Err(error) => Err(error),
        Ok(None) => Ok(0),
        Ok(Some(at)) => flags_of(alloc, annotated.marker, annotated.tables, Holder::Field(at)),
    }
}

/// The kinds of a generic parameter of a type, counted from 0.
#[tactic(auto, unfolding(rules::specs::site_rules::Kinds::type_kinds))]
pub fn type_kinds(
    alloc: Global,
    annotated: &Annotated<'_>,
    t: TypeId,
    k: u32,
) -> Result<u32, NoMemory>
    requires { IsAnnotated annotated.now }
    ensures { IfOk result (λ kinds. kinds ≡ type_kinds (all_of annotated.now.marker.now) t k) }
{
    let marker = annotated.marker;
    match type_home(marker.tables.world.recs.as_slice(), t) {
        Err(error) => Err(error),
        Ok(None) => Ok(0),
        Ok(Some(at)) => flags_of(
            alloc,
            annotated.marker,
            annotated.tables,
            Holder::TypeParameter(at, k),
        ),
    }
}

/// The kinds of a generic parameter of a method, counted from 0.
#[tactic(auto, unfolding(rules::specs::site_rules::Kinds::own_method_kinds))]
pub fn own_method_kinds(
    alloc: Global,
    annotated: &Annotated<'_>,
    m: MethodId,
    k: u32,
) -> Result<u32, NoMemory>
    requires { IsAnnotated annotated.now }
    ensures { IfOk result (λ kinds. kinds ≡ own_method_kinds (all_of annotated.now.marker.now) m k) }
{
    let marker = annotated.marker;
    match method_home(marker.tables.world.recs.as_slice(), m) {
        Err(error) => Err(error),
        Ok(None) => Ok(0),
        Ok(Some(at)) => flags_of(
            alloc,
            annotated.marker,
            annotated.tables,
            Holder::MethodParameter(at, k),
        ),
    }
}

/// The kinds that the annotation of a source's holder promises, in the method `m`; 0 without one.
#[tactic(auto, unfolding(rules::specs::site_rules::Kinds::promised))]
pub fn promised(
    alloc: Global,
    annotated: &Annotated<'_>,
    m: MethodId,
    s: &Source,
) -> Result<u32, NoMemory>
    requires { IsAnnotated annotated.now }
    ensures { IfOk result (λ kinds. kinds ≡ promised (all_of annotated.now.marker.now) m s.now) }
{
    match s {
        Source::KnownType(_) => Ok(0),
        Source::KnownHandle(_) => Ok(0),
        Source::KnownText(_) => Ok(0),
        Source::Null => Ok(0),
        Source::Parameter(n) => parameter_kinds(alloc, annotated, m, *n),
        Source::Return(n) => return_kinds(alloc, annotated, *n),
        Source::Field(f) => field_kinds(alloc, annotated, *f),
        Source::TypeParam(t, n) => type_kinds(alloc, annotated, *t, *n),
        Source::MethodParam(n) => own_method_kinds(alloc, annotated, m, *n),
        Source::Opaque => Ok(0),
    }
}
