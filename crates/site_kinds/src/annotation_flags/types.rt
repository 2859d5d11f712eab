//! Types that can name a type: System.Type and System.String.

ghost use Rattle.std.specs.Prelude.{◌≡◌, IfOk};
ghost use Rattle.std.specs.List.{list_any};
ghost use Rattle.std.specs.Option.{option_and_then, option_copied};
ghost use Rattle.il_base.specs.world_model.Worlds.{known_then, sig_expr};
ghost use Rattle.rules.specs.link_rules.Signatures.{names_at};
ghost use Rattle.rules.specs.link_rules.Cycles.{listed};
ghost use Rattle.rules.specs.link_rules.Members.{type_home};
ghost use Rattle.rules.specs.mark_rules.Attributes.{is_system_type_row};
ghost use Rattle.rules.specs.mark_rules.Annotations.{may_name_type, good_expr, field_holds};
ghost use Rattle.mark_parts.specs.mark_tables.Assemblies.{recs_of, place_of, rec_of, all_of, IsAssembly, IsMarker};
ghost use Rattle.rules.specs.site_rules.Signatures.{signature_in, signature_at, parameter_slot, return_slot, sig_type, slot_type, any_of};
ghost use Rattle.rules.specs.site_rules.Flags.{parameter_holds, return_holds};

use attribute_values::attribute_kinds::system_type::is_system_type_row;
use il_base::world_model::{AsmRec, Known, TypeExpr};
use il_base::{MethodSig, NoMemory, Sig, TypeId, element};
use mark_parts::mark_tables::assembly::Assembly;
use mark_parts::mark_tables::marker::Marker;
use rules::link_rules::RowAt;
use std::alloc::Global;
use type_tables::member_search::homes::type_home;
use type_tables::member_search::linked::assembly_at;
use type_tables::member_search::method_types::open_type;

/// Whether a type is System.Type of the core library.
fn is_system_type(all: &[AsmRec], id: TypeId) -> Result<bool, NoMemory>
    ensures { IfOk result (λ is. is ≡ list_any (is_system_type_row all.now) (listed (type_home all.now id))) }
{
    match type_home(all, id) {
        Ok(Some(at)) => Ok(is_system_type_row(all, at)),
        Ok(None) => Ok(false),
        Err(error) => Err(error),
    }
}

/// Whether a type is System.Type or System.String, modifiers aside.
#[tactic(auto, using(crate::proofs::lemmas::annotation_flags::TypeLayers::naming))]
pub fn may_name_type(all: &[AsmRec], ty: &TypeExpr) -> Result<bool, NoMemory>
    ensures { IfOk result (λ is. is ≡ may_name_type all.now ty.now) }
{
    match ty {
        TypeExpr::Prim(n) => Ok(*n == element::STRING),
        TypeExpr::Def(id) => is_system_type(all, *id),
        TypeExpr::Inst(_, _) => Ok(false),
        TypeExpr::Array(_) => Ok(false),
        TypeExpr::ByRef(_) => Ok(false),
        TypeExpr::Var(_) => Ok(false),
        TypeExpr::MVar(_) => Ok(false),
        TypeExpr::Mod { inner, .. } => may_name_type(all, inner.get()),
    }
}

/// A method's own signature, by its row; None where it has no reading.
fn signature_in(rec: &AsmRec, row: u32) -> Option<&MethodSig>
    ensures { option_copied result ≡ signature_in row rec.now }
{
    match rec.method_def.get(row as usize) {
        None => None,
        Some(m) => match &m.signature {
            Known::Bad(_) => None,
            Known::Good(sig) => Some(sig),
        },
    }
}

/// A method's own signature; None where it has no reading, or there is no such method.
pub(crate) fn signature_at(all: &[AsmRec], at: RowAt) -> Option<&MethodSig>
    ensures { option_copied result ≡ signature_at all.now at }
{
    match assembly_at(all, at.asm) {
        None => None,
        Some(rec) => signature_in(rec, at.row),
    }
}

/// The type of a slot, if it is there.
fn sig_type(
    alloc: Global,
    asm: &Assembly<'_>,
    slot: Option<&Sig>,
) -> Result<Option<TypeExpr>, NoMemory>
    requires { IsAssembly asm.now }
    ensures { IfOk result (λ ty. ty ≡ option_and_then (sig_type (recs_of asm.now) (place_of asm.now) (rec_of asm.now)) (option_copied slot.entry)) }
{
    let Some(sig) = slot else {
        return Ok(None);
    };
    match open_type(alloc, &asm.scope, sig) {
        Ok(Known::Good(ty)) => Ok(Some(ty)),
        Ok(Known::Bad(_)) => Ok(None),
        Err(error) => Err(error),
    }
}

/// The type of a parameter of a method, from 0 without `this`, if it is there.
pub(crate) fn parameter_type(
    alloc: Global,
    marker: &Marker<'_>,
    at: RowAt,
    n: u32,
) -> Result<Option<TypeExpr>, NoMemory>
    requires { IsMarker marker.now }
    ensures { IfOk result (λ ty. ty ≡ slot_type (all_of marker.now) at (parameter_slot n)) }
{
    let Some(asm) = marker.assembly_at(at.asm) else {
        return Ok(None);
    };
    let Some(sig) = signature_in(asm.scope.rec, at.row) else {
        return Ok(None);
    };
    let ty = sig_type(alloc, &asm, sig.params.get(n as usize))?;
    Ok(ty)
}

/// The type of what a method returns, if it is there.
pub(crate) fn return_type(
    alloc: Global,
    marker: &Marker<'_>,
    at: RowAt,
) -> Result<Option<TypeExpr>, NoMemory>
    requires { IsMarker marker.now }
    ensures { IfOk result (λ ty. ty ≡ slot_type (all_of marker.now) at return_slot) }
{
    let Some(asm) = marker.assembly_at(at.asm) else {
        return Ok(None);
    };
    let Some(sig) = signature_in(asm.scope.rec, at.row) else {
        return Ok(None);
    };
    let ty = sig_type(alloc, &asm, Some(&sig.ret))?;
    Ok(ty)
}

/// Whether a type that is there can name a type.
fn holds(all: &[AsmRec], ty: &Option<TypeExpr>) -> Result<bool, NoMemory>
    ensures { IfOk result (λ is. is ≡ any_of (may_name_type all.now) ty.now) }
{
    match ty {
        None => Ok(false),
        Some(ty) => may_name_type(all, ty),
    }
}

/// Whether a method has a parameter, from 0, of such a type.
pub(crate) fn parameter_holds(
    alloc: Global,
    marker: &Marker<'_>,
    at: RowAt,
    n: u32,
) -> Result<bool, NoMemory>
    requires { IsMarker marker.now }
    ensures { IfOk result (λ is. is ≡ parameter_holds (all_of marker.now) at n) }
{
    let ty = parameter_type(alloc, marker, at, n)?;
    let found = holds(marker.tables.world.recs.as_slice(), &ty);
    drop(ty);
    found
}

/// Whether a method returns such a type.
pub(crate) fn return_holds(alloc: Global, marker: &Marker<'_>, at: RowAt) -> Result<bool, NoMemory>
    requires { IsMarker marker.now }
    ensures { IfOk result (λ is. is ≡ return_holds (all_of marker.now) at) }
{
    let ty = return_type(alloc, marker, at)?;
    let found = holds(marker.tables.world.recs.as_slice(), &ty);
    drop(ty);
    found
}

/// Whether the type of a signature is such a type.
fn sig_holds(alloc: Global, asm: &Assembly<'_>, sig: &Known<Sig>) -> Result<bool, NoMemory>
    requires { IsAssembly asm.now }
    ensures { IfOk result (λ is. is ≡ list_any (may_name_type (recs_of asm.now)) (good_expr (known_then (sig_expr (names_at (recs_of asm.now) (place_of asm.now) (rec_of asm.now))) sig.now))) }
{
    match sig {
        Known::Bad(_) => Ok(false),
        Known::Good(sig) => match open_type(alloc, &asm.scope, sig) {
            Ok(Known::Good(ty)) => may_name_type(asm.scope.linked.all, &ty),
            Ok(Known::Bad(_)) => Ok(false),
            Err(error) => Err(error),
        },
    }
}

/// Whether a field is of such a type.
pub(crate) fn field_holds(alloc: Global, marker: &Marker<'_>, at: RowAt) -> Result<bool, NoMemory>
    requires { IsMarker marker.now }
    ensures { IfOk result (λ is. is ≡ field_holds (all_of marker.now) at) }
{
    let Some(asm) = marker.assembly_at(at.asm) else {
        return Ok(false);
    };
    let Some(f) = asm.scope.rec.field.get(at.row as usize) else {
        return Ok(false);
    };
    let is = sig_holds(alloc, &asm, &f.signature)?;
    Ok(is)
}
