//! The kinds of types that signatures name.

ghost use Rattle.std.specs.Prelude.{◌≡◌, [], ◌&&◌, Some, map, IfOk};
ghost use Rattle.std.specs.Option.{option_map};
ghost use Rattle.rules.specs.link_rules.Types.{definition_at};
ghost use Rattle.rules.specs.mark_rules.Attributes.{enum_size, named_kind, is_core_ref, kind_of_named, kind_of, all_some, kinds_of_known};
ghost use Rattle.mark_parts.specs.mark_tables.Assemblies.{all_of, IsMarker};
ghost use Rattle.attribute_values.specs.attribute_kinds.Sites.{recs_in, place_in, rec_in, IsSite};
ghost use Rattle.attribute_values.specs.attribute_kinds.Own.{own_kind};

use crate::attribute_kinds::prims::{absent_kind, prim_at, prim_kind};
use crate::attribute_kinds::site::{Site, definition_at};
use crate::attribute_kinds::system_type::is_system_type_row;
use attr_blobs::ParamKind;
use il_base::world_model::Known;
use il_base::{Boxed, MethodSig, NoMemory, Seq, Sig, Text};
use mark_parts::mark_core_refs::refs::is_core_ref;
use mark_parts::mark_rows::rows::is_enum;
use mark_parts::mark_sizes::enums::enum_size;
use mark_parts::mark_tables::marker::Marker;
use rules::link_rules::RowAt;
use std::alloc::Global;

/// The kind of an enum, without its name.
fn enum_kind(alloc: Global, marker: &Marker<'_>, at: RowAt) -> Result<Option<ParamKind>, NoMemory>
    requires { IsMarker marker.now }
    ensures { IfOk result (λ k. k ≡ Some (ParamKind.Enum [] (enum_size (all_of marker.now) at))) }
{
    let size = enum_size(alloc, marker, at)?;
    let name = Text::new(alloc);
    Ok(Some(ParamKind::Enum { name, size }))
}

/// The kind of a type definition that isn't primitive: System.Type, or an enum.
fn own_kind(alloc: Global, marker: &Marker<'_>, at: RowAt) -> Result<Option<ParamKind>, NoMemory>
    requires { IsMarker marker.now }
    ensures { IfOk result (λ k. k ≡ own_kind (all_of marker.now) at) }
{
    if is_system_type_row(marker.tables.world.recs.as_slice(), at) {
        return Ok(Some(ParamKind::Typ));
    }
    match is_enum(marker, at) {
        Ok(true) => enum_kind(alloc, marker, at),
        Ok(false) => Ok(None),
        Err(error) => Err(error),
    }
}

/// The kind of a type definition.
fn named_kind(alloc: Global, marker: &Marker<'_>, at: RowAt) -> Result<Option<ParamKind>, NoMemory>
    requires { IsMarker marker.now }
    ensures { IfOk result (λ k. k ≡ named_kind (all_of marker.now) at) }
{
    match prim_at(marker.tables.world.recs.as_slice(), at) {
        Some(n) => Ok(prim_kind(n)),
        None => own_kind(alloc, marker, at),
    }
}

/// The kind of the type that a TypeDef or TypeRef token names; `value` says that the signature has it as a value type.
fn token_kind(
    alloc: Global,
    site: &Site<'_>,
    value: bool,
    token: u32,
) -> Result<Option<ParamKind>, NoMemory>
    requires { IsSite site.now }
    ensures { IfOk result (λ k. k ≡ kind_of_named (recs_in site.now) (value && is_core_ref (rec_in site.now) token) (definition_at (recs_in site.now) (place_in site.now) (rec_in site.now) token)) }
{
    match definition_at(alloc, site, token) {
        Ok(Some(at)) => named_kind(alloc, site.marker, at),
        Ok(None) => {
            let absent = value && is_core_ref(site.asm.scope.rec, token);
            Ok(absent_kind(alloc, absent))
        }
        Err(error) => Err(error),
    }
}

/// The kind of a vector of this kind.
fn list_kind(alloc: Global, inner: ParamKind) -> Result<ParamKind, NoMemory>
    ensures { IfOk result (λ k. k ≡ ParamKind.List inner) }
{
    let inner = Boxed::new(alloc, inner)?;
    Ok(ParamKind::List(inner))
}

/// The kind of a vector whose elements have this kind, if they have one.
fn lists_of(alloc: Global, inner: Option<ParamKind>) -> Result<Option<ParamKind>, NoMemory>
    ensures { IfOk result (λ k. k ≡ option_map (λ x. ParamKind.List x) inner) }
{
    match inner {
        Some(inner) => {
            let list = list_kind(alloc, inner)?;
            Ok(Some(list))
        }
        None => Ok(None),
    }
}

/// The kind of the type that a signature has; None where no value has one.
#[tactic(auto, using(crate::proofs::lemmas::attribute_kinds::KindLayers::kinds))]
pub fn kind_of(alloc: Global, site: &Site<'_>, sig: &Sig) -> Result<Option<ParamKind>, NoMemory>
    requires { IsSite site.now }
    ensures { IfOk result (λ k. k ≡ kind_of (recs_in site.now) (place_in site.now) (rec_in site.now) sig.now) }
{
    match sig {
        Sig::Prim(n) => Ok(prim_kind(*n)),
        Sig::Named { value, token } => token_kind(alloc, site, *value, *token),
        Sig::Array(inner) => {
            let element = kind_of(alloc, site, inner.get())?;
            lists_of(alloc, element)
        }
        Sig::ByRef(_) => Ok(None),
        Sig::Inst { .. } => Ok(None),
        Sig::Var(_) => Ok(None),
        Sig::MVar(_) => Ok(None),
        Sig::Mod { inner, .. } => kind_of(alloc, site, inner.get()),
        Sig::Pinned(_) => Ok(None),
    }
}

/// The kinds of the types that signatures have; None where one has none.
pub(crate) fn kinds_of_all(
    alloc: Global,
    site: &Site<'_>,
    sigs: &[Sig],
) -> Result<Option<Seq<ParamKind>>, NoMemory>
    requires { IsSite site.now }
    ensures { IfOk result (λ ks. ks ≡ all_some (map (kind_of (recs_in site.now) (place_in site.now) (rec_in site.now)) sigs.now)) }
{
    let mut kinds = Seq::new(alloc);
    for sig in sigs {
        match kind_of(alloc, site, sig) {
            Ok(Some(kind)) => kinds.push(kind)?,
            Ok(None) => return Ok(None),
            Err(error) => return Err(error),
        }
    }
    Ok(Some(kinds))
}

/// The kinds of a signature's parameters; None where one has none, or the signature is bad.
pub fn kinds_of_known(
    alloc: Global,
    site: &Site<'_>,
    sig: &Known<MethodSig>,
) -> Result<Option<Seq<ParamKind>>, NoMemory>
    requires { IsSite site.now }
    ensures { IfOk result (λ ks. ks ≡ kinds_of_known (recs_in site.now) (place_in site.now) (rec_in site.now) sig.now) }
{
    match sig {
        Known::Good(sig) => kinds_of_all(alloc, site, sig.params.as_slice()),
        Known::Bad(_) => Ok(None),
    }
}
