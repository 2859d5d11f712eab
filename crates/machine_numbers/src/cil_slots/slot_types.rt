//! The closed types of arguments and locals.

ghost use Rattle.std.specs.Prelude.{◌≡◌, slice_get, IfOk};
ghost use Rattle.std.specs.Option.{option_and_then};
ghost use Rattle.rules.specs.step_rules.Slots.{arg_type, local_type, this_type, with_this};
ghost use Rattle.rules.specs.step_rules.Closing.{closed_slot};
ghost use Rattle.rules.specs.step_rules.Words.{args_of};
ghost use Rattle.machine_words.specs.cil_words.Steps.{here_by};

use il_base::cil_values::State;
use il_base::world_model::{Known, TypeExpr};
use il_base::{Boxed, NoMemory, Seq};
use machine_words::cil_closing::{args_of, closed_slot};
use machine_words::cil_queries::Answers;
use machine_words::cil_stores::is_value;
use machine_words::cil_words::Body;
use std::alloc::Global;

/// A type of the running method with its arguments put in. None where it has no meaning, or is VOID.
fn closed_here<Q: Answers>(
    alloc: Global,
    q: &Q,
    st: &State,
    ty: &TypeExpr,
) -> Result<Option<TypeExpr>, NoMemory>
    ensures { IfOk result (λ closed. closed ≡ closed_slot (Q.queries q.now) (args_of st.now.top.method.owner) st.now.top.method.args ty.now) }
{
    let targs = args_of(&st.top.method.owner);
    let closed = closed_slot(alloc, q, targs, st.top.method.args.as_slice(), ty)?;
    Ok(closed)
}

/// The type of `this`: of a value type it is a pointer (I.8.9.7).
#[tactic(auto, unfolding(rules::specs::step_rules::Slots::this_type))]
fn this_type<Q: Answers>(alloc: Global, q: &Q, owner: &TypeExpr) -> Result<TypeExpr, NoMemory>
    ensures { IfOk result (λ ty. ty ≡ this_type (Q.queries q.now) owner.now) }
{
    let ty = owner.copy(alloc)?;
    let by_value = is_value(alloc, q, owner)?;
    if !by_value {
        return Ok(ty);
    }
    let inner = Boxed::new(alloc, ty)?;
    Ok(TypeExpr::ByRef(inner))
}

/// The closed type of a parameter by its number, from 0. None where there is no such parameter, or it has no meaning.
fn param_type<Q: Answers>(
    alloc: Global,
    q: &Q,
    st: &State,
    params: &Seq<TypeExpr>,
    at: usize,
) -> Result<Option<TypeExpr>, NoMemory>
    ensures { IfOk result (λ ty. ty ≡ option_and_then (closed_slot (Q.queries q.now) (args_of st.now.top.method.owner) st.now.top.method.args) (slice_get params.now at)) }
{
    match params.get(at) {
        None => Ok(None),
        Some(ty) => closed_here(alloc, q, st, ty),
    }
}

/// The closed type of an argument, where the method takes `this`.
fn after_this<Q: Answers>(
    alloc: Global,
    q: &Q,
    st: &State,
    params: &Seq<TypeExpr>,
    at: u32,
) -> Result<Option<TypeExpr>, NoMemory>
    ensures { IfOk result (λ ty. ty ≡ with_this (Q.queries q.now) st.now.top.method.owner at params.now (closed_slot (Q.queries q.now) (args_of st.now.top.method.owner) st.now.top.method.args)) }
{
    if at == 0 {
        let ty = this_type(alloc, q, &st.top.method.owner)?;
        return Ok(Some(ty));
    }
    param_type(alloc, q, st, params, at as usize - 1)
}

/// The closed type of an argument by its number, `this` first. None where there is no such argument, or its type has no meaning.
#[tactic(auto, unfolding(rules::specs::step_rules::Slots::arg_type))]
pub(crate) fn arg_type<Q: Answers>(
    alloc: Global,
    q: &Q,
    body: &Body,
    st: &State,
    at: u32,
) -> Result<Option<TypeExpr>, NoMemory>
    ensures { IfOk result (λ ty. ty ≡ arg_type (Q.queries q.now) (here_by body.now st.now) st.now.top at) }
{
    match &body.method.signature {
        Known::Bad(_) => Ok(None),
        Known::Good(sig) => {
            if sig.this {
                after_this(alloc, q, st, &sig.params, at)
            } else {
                param_type(alloc, q, st, &sig.params, at as usize)
            }
        }
    }
}

/// The closed type of a local by its number. None where there is no such local, or its type has no meaning.
#[tactic(auto, unfolding(rules::specs::step_rules::Slots::local_type))]
pub(crate) fn local_type<Q: Answers>(
    alloc: Global,
    q: &Q,
    body: &Body,
    st: &State,
    at: u32,
) -> Result<Option<TypeExpr>, NoMemory>
    ensures { IfOk result (λ ty. ty ≡ local_type (Q.queries q.now) (here_by body.now st.now) at) }
{
    match &body.code.locals {
        Known::Bad(_) => Ok(None),
        Known::Good(types) => param_type(alloc, q, st, types, at as usize),
    }
}
