//! Accesses to elements and through pointers: which places an instruction takes, and what it loads and stores there (III.4.8,
//! III.4.27, III.3.42, III.3.62).

ghost use Rattle.std.specs.Prelude.{◌≡◌, IfOk};
ghost use Rattle.rules.specs.step_rules.Stores.{access_shape, access_of, element_shape, element_access, allows_shape, allows, loaded, as_place, stored};
ghost use Rattle.rules.specs.step_rules.Stores as stores;
ghost use Rattle.machine_words.specs.cil_stores.Accesses.{access_in};

use crate::cil_queries::Answers;
use crate::cil_stores::fitting::{fits, fits_reference};
use crate::cil_stores::integers::{narrowed, same_width, shown};
use crate::cil_stores::zeros::is_reference_shape;
use il_base::NoMemory;
use il_base::cil_values::{Shape, Value};
use il_base::world_model::TypeExpr;
use std::alloc::Global;

/// Which places an instruction takes.
#[derive(Drop)]
pub enum Access {
    /// Every integer, Boolean, Char or enum that has the width of this element type.
    ByCode(u8),
    /// Every reference type.
    ByReference,
    /// This type alone.
    ByType(TypeExpr),
}

fn access_shape(alloc: Global, ty: &TypeExpr, shape: &Shape) -> Result<Access, NoMemory>
    ensures { IfOk result (λ access. access_in access ≡ access_shape ty.now shape.now) }
{
    if let Shape::Integer(code) = shape {
        return Ok(Access::ByCode(*code));
    }
    let of = ty.copy(alloc)?;
    Ok(Access::ByType(of))
}

/// The access of an instruction with a closed type.
#[tactic(auto, unfolding(rules::specs::step_rules::Stores::access_of))]
pub fn access_of<Q: Answers>(alloc: Global, q: &Q, ty: &TypeExpr) -> Result<Access, NoMemory>
    ensures { IfOk result (λ access. access_in access ≡ access_of (Q.queries q.now) ty.now) }
{
    let shape = q.shape(alloc, ty)?;
    let access = access_shape(alloc, ty, &shape)?;
    Ok(access)
}

fn element_shape(alloc: Global, ty: &TypeExpr, shape: &Shape) -> Result<Access, NoMemory>
    ensures { IfOk result (λ access. access_in access ≡ element_shape ty.now shape.now) }
{
    if let Shape::Reference = shape {
        return Ok(Access::ByReference);
    }
    let access = access_shape(alloc, ty, shape)?;
    Ok(access)
}

/// The access of an element instruction with a closed type: one of a reference type takes any array of references.
#[tactic(auto, unfolding(rules::specs::step_rules::Stores::element_access))]
pub fn element_access<Q: Answers>(alloc: Global, q: &Q, ty: &TypeExpr) -> Result<Access, NoMemory>
    ensures { IfOk result (λ access. access_in access ≡ element_access (Q.queries q.now) ty.now) }
{
    let shape = q.shape(alloc, ty)?;
    let access = element_shape(alloc, ty, &shape)?;
    Ok(access)
}

fn has_width(code: u8, place: &TypeExpr, shape: &Shape) -> bool
    ensures { result ≡ allows_shape (stores.by_code code) place.now shape.now }
{
    match shape {
        Shape::Integer(other) => same_width(code, *other),
        Shape::Reference => false,
        Shape::Pointer => false,
        Shape::TypeHandle => false,
        Shape::FieldHandle => false,
        Shape::Structure(_) => false,
        Shape::NoValue => false,
    }
}

fn allows_shape(access: &Access, place: &TypeExpr, shape: &Shape) -> bool
    ensures { result ≡ allows_shape (access_in access.now) place.now shape.now }
{
    match access {
        Access::ByCode(code) => has_width(*code, place, shape),
        Access::ByReference => is_reference_shape(shape),
        Access::ByType(ty) => ty.is_same(place),
    }
}

/// Whether an access takes a place of a closed type.
#[tactic(auto, unfolding(rules::specs::step_rules::Stores::allows))]
pub fn allows<Q: Answers>(
    alloc: Global,
    q: &Q,
    access: &Access,
    place: &TypeExpr,
) -> Result<bool, NoMemory>
    ensures { IfOk result (λ yes. yes ≡ allows (Q.queries q.now) (access_in access.now) place.now) }
{
    let shape = q.shape(alloc, place)?;
    Ok(allows_shape(access, place, &shape))
}

/// The value of a place as an access that takes it loads it.
#[tactic(auto, unfolding(rules::specs::step_rules::Stores::loaded))]
pub fn loaded(access: &Access, v: Value) -> Option<Value>
    ensures { result ≡ loaded (access_in access.now) v }
{
    match access {
        Access::ByCode(code) => shown(*code, &v),
        Access::ByReference => Some(v),
        Access::ByType(_) => Some(v),
    }
}

fn as_place(shape: &Shape, v: Option<Value>) -> Option<Value>
    ensures { result ≡ as_place shape.now v }
{
    match v {
        None => None,
        Some(v) => match shape {
            Shape::Integer(code) => shown(*code, &v),
            Shape::Reference => Some(v),
            Shape::Pointer => Some(v),
            Shape::TypeHandle => Some(v),
            Shape::FieldHandle => Some(v),
            Shape::Structure(_) => Some(v),
            Shape::NoValue => Some(v),
        },
    }
}

/// A value as a store by an access leaves it in a place that it takes.
#[tactic(auto, unfolding(rules::specs::step_rules::Stores::stored))]
pub fn stored<Q: Answers>(
    alloc: Global,
    q: &Q,
    access: &Access,
    place: &TypeExpr,
    v: Value,
) -> Result<Option<Value>, NoMemory>
    ensures { IfOk result (λ kept. kept ≡ stored (Q.queries q.now) (access_in access.now) place.now v) }
{
    match access {
        Access::ByCode(code) => {
            let shape = q.shape(alloc, place)?;
            Ok(as_place(&shape, narrowed(*code, &v)))
        }
        Access::ByReference => Ok(fits_reference(v)),
        Access::ByType(ty) => {
            let kept = fits(alloc, q, ty, v)?;
            Ok(kept)
        }
    }
}
