//! Targets: the object that an instance's method or field takes.

ghost use Rattle.std.specs.Prelude.{◌≡◌, ℕ, IfOk};
ghost use Rattle.il_base.specs.declared.cil_values.value.Value.TheVariants.{Object};
ghost use Rattle.rules.specs.step_rules.Next.{Next};
ghost use Rattle.rules.specs.step_rules.CoreInvoking.{is_open_owner, with_target};
ghost use Rattle.cil_reflect.specs.Aims.{aim_next};

use cil_core::is_open;
use il_base::NoMemory;
use il_base::cil_values::{State, Value};
use il_base::world_model::TypeExpr;
use machine_words::cil_closing::{are_whole, args_of};
use machine_words::cil_objects::is_a;
use machine_words::cil_queries::Answers;
use std::alloc::Global;

/// A target of a call.
#[derive(Clone, Copy, Debug)]
pub enum Aim {
    /// The object, by its place in the heap.
    At(u32),
    /// Null, or an object of another type: TargetException is raised.
    Wrong,
    Stuck,
}

/// Whether a type has generic parameters without arguments, or in place of arguments.
pub(crate) fn is_open_owner<Q: Answers>(q: &Q, ty: &TypeExpr) -> bool
    ensures { result ≡ is_open_owner (Q.queries q.now) ty.now }
{
    is_open(q, ty) || !are_whole(q, args_of(ty))
}

/// An object as the target of a type's member.
fn object_target<Q: Answers>(
    alloc: Global,
    q: &Q,
    st: &State,
    ty: &TypeExpr,
    at: u32,
) -> Result<Aim, NoMemory>
    ensures { IfOk result (λ aim. (f : ℕ → Next) → with_target (Q.queries q.now) ty.now (Object at) st.now f ≡ aim_next aim (Q.queries q.now) st.now f) }
{
    if is_a(alloc, q, st, ty, at)? {
        Ok(Aim::At(at))
    } else {
        Ok(Aim::Wrong)
    }
}

/// The target of a type's member.
pub(crate) fn with_target<Q: Answers>(
    alloc: Global,
    q: &Q,
    st: &State,
    ty: &TypeExpr,
    v: &Value,
) -> Result<Aim, NoMemory>
    ensures { IfOk result (λ aim. (f : ℕ → Next) → with_target (Q.queries q.now) ty.now v.now st.now f ≡ aim_next aim (Q.queries q.now) st.now f) }
{
    match v {
        Value::Null => Ok(Aim::Wrong),
        Value::Object(at) => object_target(alloc, q, st, ty, *at),
        Value::I4(_) => Ok(Aim::Stuck),
        Value::I8(_) => Ok(Aim::Stuck),
        Value::Native(_) => Ok(Aim::Stuck),
        Value::Pointer(_) => Ok(Aim::Stuck),
        Value::Struct(_, _) => Ok(Aim::Stuck),
        Value::Handle(_) => Ok(Aim::Stuck),
        Value::FieldHandle(_) => Ok(Aim::Stuck),
    }
}
