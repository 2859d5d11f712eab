//! Whether one type can stand for another (I.8.7), without variance.

ghost use Rattle.std.specs.Prelude.{◌≡◌, IfOk, None};
ghost use Rattle.std.specs.Bool.{Decides};
ghost use Rattle.std.specs.Option.{option_copied};
ghost use Rattle.rules.specs.type_rules.Subtypes.{above, is_defined, is_under_object, leads_up, element_of, is_subtype, IsSubtype};
ghost use Rattle.type_tables.specs.Tables.{IsTables};

use crate::member_search::bases::definition;
use crate::subtypes::references::is_reference;
use crate::subtypes::rounds::{above, is_among};
use crate::tables::Tables;
use base_laws::type_laws::laws::subtype_decides;
use il_base::NoMemory;
use il_base::element::OBJECT;
use il_base::world_model::{AsmRec, TypeExpr};
use std::alloc::Global;

/// Whether a type has a definition.
fn is_defined(all: &[AsmRec], ty: &TypeExpr) -> Result<bool, NoMemory>
    ensures { IfOk result (λ is. is ≡ is_defined all.now ty.now) }
{
    match definition(all, ty) {
        Ok(Some(_)) => Ok(true),
        Ok(None) => Ok(false),
        Err(error) => Err(error),
    }
}

/// Whether a type has a definition, and the other is System.Object.
fn is_under_object(all: &[AsmRec], a: &TypeExpr, b: &TypeExpr) -> Result<bool, NoMemory>
    ensures { IfOk result (λ is. is ≡ is_under_object all.now a.now b.now) }
{
    let is = is_defined(all, a)?;
    Ok(is && b.is_same(&TypeExpr::Prim(OBJECT)))
}

/// Whether steps up from a type lead to another, or the other is System.Object.
fn leads_up(
    alloc: Global,
    tables: &Tables<'_>,
    a: &TypeExpr,
    b: &TypeExpr,
) -> Result<bool, NoMemory>
    requires { IsTables tables.now }
    ensures { IfOk result (λ yes. yes ≡ leads_up tables.now.world.now.recs a.now b.now) }
{
    let under = is_under_object(tables.world.recs.as_slice(), a, b)?;
    if under {
        return Ok(true);
    }
    let found = above(alloc, tables, a)?;
    let yes = is_among(found.as_slice(), b);
    Ok(yes)
}

/// The element of an array; None for any other type.
#[tactic(auto, unfolding(rules::specs::type_rules::Subtypes::element_of))]
fn element_of(ty: &TypeExpr) -> Option<&TypeExpr>
    ensures { option_copied result ≡ element_of ty.now }
{
    match ty {
        TypeExpr::Array(element) => Some(element.get()),
        TypeExpr::Prim(_) => None,
        TypeExpr::Def(_) => None,
        TypeExpr::Inst(_, _) => None,
        TypeExpr::ByRef(_) => None,
        TypeExpr::Var(_) => None,
        TypeExpr::MVar(_) => None,
        TypeExpr::Mod { .. } => None,
    }
}

/// The search for a subtype, one level of arrays after the other.
fn is_below(
    alloc: Global,
    tables: &Tables<'_>,
    a: &TypeExpr,
    b: &TypeExpr,
) -> Result<bool, NoMemory>
    requires { IsTables tables.now }
    ensures { IfOk result (λ yes. yes ≡ is_subtype tables.now.world.now.recs a.now b.now) }
{
    let mut below = a;
    let mut wanted = b;
    'levels: loop {
        let found = leads_up(alloc, tables, below, wanted)?;
        if found {
            return Ok(true);
        }
        let element = match element_of(below) {
            Some(element) => element,
            None => return Ok(false),
        };
        let other = match element_of(wanted) {
            Some(other) => other,
            None => return Ok(false),
        };
        let by_reference = is_reference(tables, element)?;
        if !by_reference {
            return Ok(false);
        }
        below = element;
        wanted = other;
    }
}

/// The search, which two types that are one don't need.
fn is_same_or_below(
    alloc: Global,
    tables: &Tables<'_>,
    a: &TypeExpr,
    b: &TypeExpr,
) -> Result<bool, NoMemory>
    requires { IsTables tables.now }
    ensures { IfOk result (λ yes. yes ≡ is_subtype tables.now.world.now.recs a.now b.now) }
{
    subtype_decides();
    if a.is_same(b) {
        return Ok(true);
    }
    let yes = is_below(alloc, tables, a, b)?;
    Ok(yes)
}

/// The same for a type that is no array, by all that steps up from it lead to.
#[tactic(auto, using(crate::proofs::lemmas::subtypes::Elements::plain_is))]
pub fn is_subtype_by(
    all: &[AsmRec],
    a: &TypeExpr,
    b: &TypeExpr,
    led: &[TypeExpr],
) -> Result<bool, NoMemory>
    requires led { led.now ≡ above all.now a.now }
    requires plain { element_of a.now ≡ None }
    ensures { IfOk result (λ yes. yes ≡ is_subtype all.now a.now b.now) }
{
    if is_among(led, b) {
        return Ok(true);
    }
    let under = is_under_object(all, a, b)?;
    Ok(under)
}

/// Whether a value of the first type can stand where one of the second is wanted: they are one, the second is a base or an
/// interface of the first or of one of these, or both are arrays and the first one's element is a reference type that can
/// stand for the second one's (I.8.7). An array can stand for System.Array, every type of a definition for System.Object.
pub fn is_subtype(
    alloc: Global,
    tables: &Tables<'_>,
    a: &TypeExpr,
    b: &TypeExpr,
) -> Result<bool, NoMemory>
    requires { IsTables tables.now }
    ensures searched { IfOk result (λ yes. yes ≡ is_subtype tables.now.world.now.recs a.now b.now) }
    ensures related { IfOk result (λ yes. Decides yes (IsSubtype tables.now.world.now.recs a.now b.now)) }
{
    subtype_decides();
    let yes = is_same_or_below(alloc, tables, a, b)?;
    Ok(yes)
}
