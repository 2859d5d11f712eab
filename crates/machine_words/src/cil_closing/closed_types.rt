//! Types with generic arguments put in, without the modifiers around them (II.9.8, II.7.1).

ghost use Rattle.std.specs.Prelude.{◌≡◌, ◌==◌, not, IfOk};
ghost use Rattle.il_base.specs.declared.element.TheConstants.{VOID};
ghost use Rattle.il_base.specs.declared.world_model.expr.TypeExpr.TheVariants as expr;
ghost use Rattle.rules.specs.step_rules.Closing.{closed_return, closed_slot, closed_cell, closed_arg, all_of, if_so, takes};

use crate::cil_closing::plain::{is_void, without_modifiers};
use crate::cil_closing::standing::{is_sound, is_whole, takes};
use crate::cil_queries::Answers;
use il_base::world_model::TypeExpr;
use il_base::{NoMemory, Seq, TypeId, element};
use std::alloc::Global;

/// A type definition without parameters. None where it has some, or isn't there.
fn closed_definition<Q: Answers>(q: &Q, id: TypeId) -> Option<TypeExpr>
    ensures { result ≡ if_so (takes ((Q.queries q.now).head id.0) 0) (expr.Def id) }
{
    if takes(q, id, 0) {
        Some(TypeExpr::Def(id))
    } else {
        None
    }
}

/// A return type of any form.
#[tactic(auto, unfolding(rules::specs::step_rules::Closing::closed_return))]
fn made_return<Q: Answers>(
    alloc: Global,
    q: &Q,
    targs: &[TypeExpr],
    margs: &[TypeExpr],
    ty: &TypeExpr,
) -> Result<Option<TypeExpr>, NoMemory>
    ensures { IfOk result (λ closed. closed ≡ closed_return (Q.queries q.now) targs.now margs.now ty.now) }
{
    let whole = ty.subst(alloc, targs, margs)?;
    let closed = without_modifiers(whole);
    if !is_sound(q, &closed) {
        return Ok(None);
    }
    Ok(Some(closed))
}

/// A return type, which can be VOID. None where it has no meaning. A primitive and a type definition are as they are in every
/// method.
#[tactic(auto, using(crate::proofs::lemmas::cil_closing::Settling::settled_return))]
pub fn closed_return<Q: Answers>(
    alloc: Global,
    q: &Q,
    targs: &[TypeExpr],
    margs: &[TypeExpr],
    ty: &TypeExpr,
) -> Result<Option<TypeExpr>, NoMemory>
    ensures { IfOk result (λ closed. closed ≡ closed_return (Q.queries q.now) targs.now margs.now ty.now) }
{
    match ty {
        TypeExpr::Prim(code) => Ok(Some(TypeExpr::Prim(*code))),
        TypeExpr::Def(id) => Ok(closed_definition(q, *id)),
        TypeExpr::Inst(_, _) => made_return(alloc, q, targs, margs, ty),
        TypeExpr::Array(_) => made_return(alloc, q, targs, margs, ty),
        TypeExpr::ByRef(_) => made_return(alloc, q, targs, margs, ty),
        TypeExpr::Var(_) => made_return(alloc, q, targs, margs, ty),
        TypeExpr::MVar(_) => made_return(alloc, q, targs, margs, ty),
        TypeExpr::Mod { .. } => made_return(alloc, q, targs, margs, ty),
    }
}

/// The type of a slot, of any form.
#[tactic(auto, unfolding(rules::specs::step_rules::Closing::closed_slot))]
fn made_slot<Q: Answers>(
    alloc: Global,
    q: &Q,
    targs: &[TypeExpr],
    margs: &[TypeExpr],
    ty: &TypeExpr,
) -> Result<Option<TypeExpr>, NoMemory>
    ensures { IfOk result (λ closed. closed ≡ closed_slot (Q.queries q.now) targs.now margs.now ty.now) }
{
    let Some(closed) = made_return(alloc, q, targs, margs, ty)? else {
        return Ok(None);
    };
    if is_void(&closed) {
        return Ok(None);
    }
    Ok(Some(closed))
}

/// A primitive but VOID.
fn closed_primitive(code: u8) -> Option<TypeExpr>
    ensures { result ≡ if_so (not (code == VOID)) (expr.Prim code) }
{
    if code == element::VOID {
        None
    } else {
        Some(TypeExpr::Prim(code))
    }
}

/// The type of a slot, a parameter or an operand. None where it is VOID or has no meaning.
#[tactic(auto, using(crate::proofs::lemmas::cil_closing::Settling::settled_slot))]
pub fn closed_slot<Q: Answers>(
    alloc: Global,
    q: &Q,
    targs: &[TypeExpr],
    margs: &[TypeExpr],
    ty: &TypeExpr,
) -> Result<Option<TypeExpr>, NoMemory>
    ensures { IfOk result (λ closed. closed ≡ closed_slot (Q.queries q.now) targs.now margs.now ty.now) }
{
    match ty {
        TypeExpr::Prim(code) => Ok(closed_primitive(*code)),
        TypeExpr::Def(id) => Ok(closed_definition(q, *id)),
        TypeExpr::Inst(_, _) => made_slot(alloc, q, targs, margs, ty),
        TypeExpr::Array(_) => made_slot(alloc, q, targs, margs, ty),
        TypeExpr::ByRef(_) => made_slot(alloc, q, targs, margs, ty),
        TypeExpr::Var(_) => made_slot(alloc, q, targs, margs, ty),
        TypeExpr::MVar(_) => made_slot(alloc, q, targs, margs, ty),
        TypeExpr::Mod { .. } => made_slot(alloc, q, targs, margs, ty),
    }
}

/// The type of an element or a field, of any form.
#[tactic(auto, unfolding(rules::specs::step_rules::Closing::closed_cell_by))]
fn made_cell<Q: Answers>(
    alloc: Global,
    q: &Q,
    targs: &[TypeExpr],
    margs: &[TypeExpr],
    ty: &TypeExpr,
) -> Result<Option<TypeExpr>, NoMemory>
    ensures { IfOk result (λ closed. closed ≡ closed_cell (Q.queries q.now) targs.now margs.now ty.now) }
{
    let whole = ty.subst(alloc, targs, margs)?;
    let closed = without_modifiers(whole);
    if !is_whole(q, &closed) {
        return Ok(None);
    }
    Ok(Some(closed))
}

/// The type of an element or a field. None where it is VOID or a reference, or has no meaning.
#[tactic(auto, using(crate::proofs::lemmas::cil_closing::Settling::settled_cell))]
pub fn closed_cell<Q: Answers>(
    alloc: Global,
    q: &Q,
    targs: &[TypeExpr],
    margs: &[TypeExpr],
    ty: &TypeExpr,
) -> Result<Option<TypeExpr>, NoMemory>
    ensures { IfOk result (λ closed. closed ≡ closed_cell (Q.queries q.now) targs.now margs.now ty.now) }
{
    match ty {
        TypeExpr::Prim(code) => Ok(closed_primitive(*code)),
        TypeExpr::Def(id) => Ok(closed_definition(q, *id)),
        TypeExpr::Inst(_, _) => made_cell(alloc, q, targs, margs, ty),
        TypeExpr::Array(_) => made_cell(alloc, q, targs, margs, ty),
        TypeExpr::ByRef(_) => made_cell(alloc, q, targs, margs, ty),
        TypeExpr::Var(_) => made_cell(alloc, q, targs, margs, ty),
        TypeExpr::MVar(_) => made_cell(alloc, q, targs, margs, ty),
        TypeExpr::Mod { .. } => made_cell(alloc, q, targs, margs, ty),
    }
}

/// An argument, which keeps the modifiers around it. None where it is VOID or a reference, or has no meaning.
fn closed_arg<Q: Answers>(
    alloc: Global,
    q: &Q,
    targs: &[TypeExpr],
    margs: &[TypeExpr],
    ty: &TypeExpr,
) -> Result<Option<TypeExpr>, NoMemory>
    ensures { IfOk result (λ closed. closed ≡ closed_arg (Q.queries q.now) targs.now margs.now ty.now) }
{
    let closed = ty.subst(alloc, targs, margs)?;
    if !is_whole(q, &closed) {
        return Ok(None);
    }
    Ok(Some(closed))
}

/// Some arguments, in their order. None where one has no meaning.
pub(crate) fn closed_args<Q: Answers>(
    alloc: Global,
    q: &Q,
    targs: &[TypeExpr],
    margs: &[TypeExpr],
    types: &[TypeExpr],
) -> Result<Option<Seq<TypeExpr>>, NoMemory>
    ensures { IfOk result (λ closed. closed ≡ all_of (closed_arg (Q.queries q.now) targs.now margs.now) types.now) }
{
    let mut made = Seq::new(alloc);
    for one in types {
        match closed_arg(alloc, q, targs, margs, one) {
            Err(error) => return Err(error),
            Ok(None) => return Ok(None),
            Ok(Some(closed)) => made.push(closed)?,
        }
    }
    Ok(Some(made))
}

/// The types of some slots, in their order. None where one is VOID or has no meaning.
pub(crate) fn closed_slots<Q: Answers>(
    alloc: Global,
    q: &Q,
    targs: &[TypeExpr],
    margs: &[TypeExpr],
    types: &[TypeExpr],
) -> Result<Option<Seq<TypeExpr>>, NoMemory>
    ensures { IfOk result (λ closed. closed ≡ all_of (closed_slot (Q.queries q.now) targs.now margs.now) types.now) }
{
    let mut made = Seq::new(alloc);
    for one in types {
        match closed_slot(alloc, q, targs, margs, one) {
            Err(error) => return Err(error),
            Ok(None) => return Ok(None),
            Ok(Some(closed)) => made.push(closed)?,
        }
    }
    Ok(Some(made))
}
