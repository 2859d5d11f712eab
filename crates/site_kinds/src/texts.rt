//! Slots of texts.

ghost use Rattle.std.specs.Prelude.{◌≡◌, slice_get, IfOk};
ghost use Rattle.std.specs.List.{list_any};
ghost use Rattle.std.specs.Option.{option_and_then};
ghost use Rattle.il_base.specs.world_model.Worlds.{known_then, sig_expr};
ghost use Rattle.rules.specs.link_rules.Signatures.{names_at};
ghost use Rattle.rules.specs.link_rules.Cycles.{listed};
ghost use Rattle.rules.specs.type_rules.Slots.{method_home};
ghost use Rattle.rules.specs.mark_rules.Annotations.{good_expr};
ghost use Rattle.mark_parts.specs.mark_tables.Assemblies.{recs_of, place_of, rec_of, all_of, IsAssembly};
ghost use Rattle.site_kinds.specs.Known.{IsAnnotated};
ghost use Rattle.rules.specs.site_rules.Fails.{is_string, takes_string, field_is_string, is_text_slot};
ghost use Rattle.rules.specs.site_rules.Signatures.{parameter_slot, return_slot, slot_type, any_of};

use crate::annotated::field_home;
use crate::annotation_flags::types::{parameter_type, return_type};
use crate::known::Annotated;
use il_base::world_model::{FieldRow, Known, TypeExpr};
use il_base::{FieldId, MethodId, NoMemory, element};
use mark_parts::mark_tables::assembly::Assembly;
use rules::link_rules::RowAt;
use rules::site_rules::Target;
use std::alloc::Global;
use type_tables::member_search::method_types::open_type;
use type_tables::methods::method_home;

/// Whether a type is `string`, modifiers aside.
#[tactic(auto, unfolding(rules::specs::site_rules::Fails::is_string))]
fn is_string(e: &TypeExpr) -> bool
    ensures { result ≡ is_string e.now }
{
    match e {
        TypeExpr::Prim(code) => *code == element::STRING,
        TypeExpr::Def(_) => false,
        TypeExpr::Inst(_, _) => false,
        TypeExpr::Array(_) => false,
        TypeExpr::ByRef(_) => false,
        TypeExpr::Var(_) => false,
        TypeExpr::MVar(_) => false,
        TypeExpr::Mod { inner, .. } => is_string(inner.get()),
    }
}

/// The type of a parameter of a method, counted from 0 without `this`, if it is there.
fn parameter_of(
    alloc: Global,
    annotated: &Annotated<'_>,
    m: MethodId,
    n: u32,
) -> Result<Option<TypeExpr>, NoMemory>
    requires { IsAnnotated annotated.now }
    ensures { IfOk result (λ ty. ty ≡ option_and_then (λ at. slot_type (all_of annotated.now.marker.now) at (parameter_slot n)) (method_home (all_of annotated.now.marker.now) m)) }
{
    let marker = annotated.marker;
    match method_home(marker.tables.world.recs.as_slice(), m) {
        Err(error) => Err(error),
        Ok(None) => Ok(None),
        Ok(Some(at)) => parameter_type(alloc, marker, at, n),
    }
}

/// The type of what a method returns, if it is there.
fn return_of(
    alloc: Global,
    annotated: &Annotated<'_>,
    m: MethodId,
) -> Result<Option<TypeExpr>, NoMemory>
    requires { IsAnnotated annotated.now }
    ensures { IfOk result (λ ty. ty ≡ option_and_then (λ at. slot_type (all_of annotated.now.marker.now) at return_slot) (method_home (all_of annotated.now.marker.now) m)) }
{
    let marker = annotated.marker;
    match method_home(marker.tables.world.recs.as_slice(), m) {
        Err(error) => Err(error),
        Ok(None) => Ok(None),
        Ok(Some(at)) => return_type(alloc, marker, at),
    }
}

fn is_text(ty: &Option<TypeExpr>) -> bool
    ensures { result ≡ any_of is_string ty.now }
{
    match ty {
        None => false,
        Some(ty) => is_string(ty),
    }
}

/// Whether a parameter of a method, counted from 0 without `this`, is a text.
fn takes_text(
    alloc: Global,
    annotated: &Annotated<'_>,
    m: MethodId,
    n: u32,
) -> Result<bool, NoMemory>
    requires { IsAnnotated annotated.now }
    ensures { IfOk result (λ is. is ≡ takes_string (all_of annotated.now.marker.now) m (parameter_slot n)) }
{
    let ty = parameter_of(alloc, annotated, m, n)?;
    let is = is_text(&ty);
    drop(ty);
    Ok(is)
}

/// Whether a method returns a text.
fn returns_text(alloc: Global, annotated: &Annotated<'_>, m: MethodId) -> Result<bool, NoMemory>
    requires { IsAnnotated annotated.now }
    ensures { IfOk result (λ is. is ≡ takes_string (all_of annotated.now.marker.now) m return_slot) }
{
    let ty = return_of(alloc, annotated, m)?;
    let is = is_text(&ty);
    drop(ty);
    Ok(is)
}

fn is_string_of(ty: &Known<TypeExpr>) -> bool
    ensures { result ≡ list_any is_string (good_expr ty.now) }
{
    match ty {
        Known::Bad(_) => false,
        Known::Good(ty) => is_string(ty),
    }
}

fn row_is_text(alloc: Global, asm: &Assembly<'_>, f: &FieldRow) -> Result<bool, NoMemory>
    requires { IsAssembly asm.now }
    ensures { IfOk result (λ is. is ≡ list_any is_string (good_expr (known_then (sig_expr (names_at (recs_of asm.now) (place_of asm.now) (rec_of asm.now))) f.now.signature))) }
{
    match &f.signature {
        Known::Bad(_) => Ok(false),
        Known::Good(sig) => match open_type(alloc, &asm.scope, sig) {
            Err(error) => Err(error),
            Ok(ty) => {
                let is = is_string_of(&ty);
                drop(ty);
                Ok(is)
            }
        },
    }
}

fn field_at_is_text(alloc: Global, annotated: &Annotated<'_>, at: RowAt) -> Result<bool, NoMemory>
    requires { IsAnnotated annotated.now }
    ensures { IfOk result (λ is. is ≡ list_any (field_is_string (all_of annotated.now.marker.now) at) (listed (slice_get (all_of annotated.now.marker.now) at.asm))) }
{
    let Some(asm) = annotated.marker.assembly_at(at.asm) else {
        return Ok(false);
    };
    let Some(f) = asm.scope.rec.field.get(at.row as usize) else {
        return Ok(false);
    };
    row_is_text(alloc, &asm, f)
}

/// Whether a field is a text.
#[tactic(auto, unfolding(rules::specs::site_rules::Fails::is_text_slot))]
fn field_is_text(alloc: Global, annotated: &Annotated<'_>, f: FieldId) -> Result<bool, NoMemory>
    requires { IsAnnotated annotated.now }
    ensures { IfOk result (λ is. is ≡ is_text_slot (all_of annotated.now.marker.now) (Target.Field f)) }
{
    let marker = annotated.marker;
    match field_home(marker.tables.world.recs.as_slice(), f) {
        Err(error) => Err(error),
        Ok(None) => Ok(false),
        Ok(Some(at)) => field_at_is_text(alloc, annotated, at),
    }
}

/// Whether a target is a slot of a text.
#[tactic(auto, unfolding(rules::specs::site_rules::Fails::is_text_slot))]
pub fn is_text_slot(alloc: Global, annotated: &Annotated<'_>, to: Target) -> Result<bool, NoMemory>
    requires { IsAnnotated annotated.now }
    ensures { IfOk result (λ is. is ≡ is_text_slot (all_of annotated.now.marker.now) to) }
{
    match to {
        Target::Param(m, n) => takes_text(alloc, annotated, m, n),
        Target::Return(m) => returns_text(alloc, annotated, m),
        Target::Field(f) => field_is_text(alloc, annotated, f),
        Target::This(_) => Ok(false),
        Target::TypeArg(_, _) => Ok(false),
        Target::MethodArg(_, _) => Ok(false),
        Target::Name(_) => Ok(false),
        Target::Unreferenced(_) => Ok(false),
        Target::Override(_) => Ok(false),
        Target::Reflection(_) => Ok(false),
    }
}
