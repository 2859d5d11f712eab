//! What the tokens of operands name.

ghost use Rattle.std.specs.Prelude.{◌≡◌, slice_get, find, IfOk};
ghost use Rattle.std.specs.Option.{option_copied};
ghost use Rattle.rules.specs.link_rules.Signatures.{token_type};
ghost use Rattle.rules.specs.mark_rules.Naming.{method_named, field_named};
ghost use Rattle.mark_parts.specs.mark_tables.Assemblies.{recs_of, place_of, rec_of, IsAssembly};
ghost use Rattle.rules.specs.view_rules.Code.{is_token, text_named, handle_use};

use crate::world_code::copies::{copy_field, copy_method};
use il_base::cil_values::Use;
use il_base::world_model::{BadKind, FieldUse, Known, MethodUse, TypeExpr, UserText};
use il_base::{NoMemory, Seq, Units};
use mark_parts::bodies::{is_field_token, is_method_token};
use mark_parts::mark_tables::assembly::Assembly;
use mark_parts::tokens::{field_link, method_link};
use std::alloc::Global;

/// The type that a TypeDef, TypeRef or TypeSpec token names.
pub(crate) fn type_named(
    alloc: Global,
    asm: &Assembly<'_>,
    token: u32,
) -> Result<Known<TypeExpr>, NoMemory>
    requires { IsAssembly asm.now }
    ensures { IfOk result (λ n. n ≡ token_type (recs_of asm.now) (place_of asm.now) (rec_of asm.now) token) }
{
    match asm.scope.token_type(token) {
        Ok(ty) => {
            let ty = ty.copy(alloc)?;
            Ok(Known::Good(ty))
        }
        Err(why) => Ok(Known::Bad(why)),
    }
}

/// The method that a MethodDef, MemberRef or MethodSpec token names.
pub(crate) fn method_named(
    alloc: Global,
    asm: &Assembly<'_>,
    token: u32,
) -> Result<Known<MethodUse>, NoMemory>
    requires { IsAssembly asm.now }
    ensures { IfOk result (λ n. n ≡ method_named (recs_of asm.now) (place_of asm.now) (rec_of asm.now) token) }
{
    match method_link(asm, token) {
        None => Ok(Known::Bad(BadKind::Unresolved)),
        Some(Known::Bad(why)) => Ok(Known::Bad(*why)),
        Some(Known::Good(used)) => {
            let used = copy_method(alloc, used)?;
            Ok(Known::Good(used))
        }
    }
}

/// The field that a Field or MemberRef token names.
pub(crate) fn field_named(
    alloc: Global,
    asm: &Assembly<'_>,
    token: u32,
) -> Result<Known<FieldUse>, NoMemory>
    requires { IsAssembly asm.now }
    ensures { IfOk result (λ n. n ≡ field_named (recs_of asm.now) (place_of asm.now) (rec_of asm.now) token) }
{
    match field_link(asm, token) {
        None => Ok(Known::Bad(BadKind::Unresolved)),
        Some(Known::Bad(why)) => Ok(Known::Bad(*why)),
        Some(Known::Good(used)) => {
            let used = copy_field(alloc, used)?;
            Ok(Known::Good(used))
        }
    }
}

/// The first of some places.
fn first_of(places: &[u32]) -> Option<u32>
    ensures { result ≡ slice_get places.now 0 }
{
    places.first().copied()
}

/// The user string of a token; None where the assembly has none.
fn text_at<'a>(asm: &Assembly<'a>, token: u32) -> Option<&'a UserText>
    requires { IsAssembly asm.now }
    ensures { option_copied result ≡ find (is_token token) (rec_of asm.now).user }
{
    let places = asm.owners.texts.rows_with(token);
    match first_of(places) {
        None => None,
        Some(place) => asm.scope.rec.user.get(place as usize),
    }
}

/// The text that an `ldstr` names.
pub(crate) fn text_named(
    alloc: Global,
    asm: &Assembly<'_>,
    token: u32,
) -> Result<Known<Units>, NoMemory>
    requires { IsAssembly asm.now }
    ensures { IfOk result (λ n. n ≡ text_named (rec_of asm.now) token) }
{
    match text_at(asm, token) {
        None => Ok(Known::Bad(BadKind::Unresolved)),
        Some(text) => {
            let units = Seq::from_slice(alloc, text.text.as_slice())?;
            Ok(Known::Good(units))
        }
    }
}

/// What the operand of an `ldtoken` names (III.4.17).
pub(crate) fn handle_use(alloc: Global, asm: &Assembly<'_>, token: u32) -> Result<Use, NoMemory>
    requires { IsAssembly asm.now }
    ensures { IfOk result (λ u. u ≡ handle_use (recs_of asm.now) (place_of asm.now) (rec_of asm.now) token) }
{
    if is_field_token(asm.scope.rec, token) {
        let named = field_named(alloc, asm, token)?;
        return Ok(Use::Field(named));
    }
    if is_method_token(token) {
        let named = method_named(alloc, asm, token)?;
        return Ok(Use::Method(named));
    }
    let named = type_named(alloc, asm, token)?;
    Ok(Use::Typ(named))
}
