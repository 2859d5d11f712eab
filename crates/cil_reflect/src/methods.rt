//! The methods that reflection calls.

ghost use Rattle.std.specs.Prelude.{◌≡◌, IfOk};
ghost use Rattle.std.specs.List.{list_any};
ghost use Rattle.il_base.specs.declared.cil_values.state.State.{State};
ghost use Rattle.rules.specs.step_rules.Next.{Next};
ghost use Rattle.rules.specs.step_rules.Closing.{Callee as Called};
ghost use Rattle.rules.specs.step_rules.CoreInvoking.{callable, callable_by, invocable, is_by_ref, is_open_method, is_refused, is_refused_method, takes_by_ref};
ghost use Rattle.cil_reflect.specs.Aims.{method_next};

use crate::targets::is_open_owner;
use il_base::NoMemory;
use il_base::cil_values::{CoreCall, Printed, Signature};
use il_base::world_model::{Known, MethodUse, TypeExpr};
use machine_words::cil_closing::{Callee, callee_of};
use machine_words::cil_queries::Answers;
use std::alloc::Global;

/// A method that reflection is to call.
#[derive(Drop)]
pub enum Allowed<'a> {
    Is(Callee<'a>),
    /// It has generic parameters without arguments: InvalidOperationException is raised.
    Open,
    Stopped,
    Stuck,
}

/// Whether a method is generic, or in an open type.
fn is_open_method<Q: Answers>(q: &Q, used: &MethodUse, sig: &Signature) -> bool
    ensures { result ≡ is_open_method (Q.queries q.now) used.now sig.now }
{
    sig.own != 0 || is_open_owner(q, &used.owner)
}

/// Members of the core library that reflection doesn't call: they call themselves.
#[tactic(auto, unfolding(rules::specs::step_rules::CoreInvoking::is_refused))]
fn is_refused(member: CoreCall) -> bool
    ensures { result ≡ is_refused member }
{
    match member {
        CoreCall::Invoke => true,
        CoreCall::PropertyGet => true,
        CoreCall::PropertySet => true,
        CoreCall::Create => true,
        CoreCall::CreateOf => true,
        CoreCall::AreEqual => true,
        CoreCall::Prints(_, kind) => match kind {
            Printed::OfObject => true,
            Printed::OfString => false,
            Printed::OfNumber => false,
            Printed::OfBool => false,
            Printed::OfChar => false,
        },
        _ => false,
    }
}

fn is_refused_method(member: Option<CoreCall>) -> bool
    ensures { result ≡ is_refused_method member }
{
    match member {
        None => false,
        Some(member) => is_refused(member),
    }
}

fn is_by_ref(ty: &TypeExpr) -> bool
    ensures { result ≡ is_by_ref ty.now }
{
    match ty {
        TypeExpr::ByRef(_) => true,
        TypeExpr::Prim(_) => false,
        TypeExpr::Def(_) => false,
        TypeExpr::Inst(_, _) => false,
        TypeExpr::Array(_) => false,
        TypeExpr::Var(_) => false,
        TypeExpr::MVar(_) => false,
        TypeExpr::Mod { .. } => false,
    }
}

fn any_by_ref(types: &[TypeExpr]) -> bool
    ensures { result ≡ list_any is_by_ref types.now }
{
    types.iter().any(|ty| is_by_ref(ty))
}

/// Whether a signature has a managed pointer as a parameter or as what is returned.
fn takes_by_ref(sig: &Signature) -> bool
    ensures { result ≡ takes_by_ref sig.now }
{
    any_by_ref(sig.params.as_slice()) || is_by_ref(&sig.ret)
}

fn callable<'a, Q: Answers>(
    alloc: Global,
    q: &'a Q,
    used: MethodUse,
) -> Result<Allowed<'a>, NoMemory>
    ensures { IfOk result (λ out. (s : State) (f : Called → Next) → callable (Q.queries q.now) used s f ≡ method_next out (Q.queries q.now) s f) }
{
    let Some(c) = callee_of(alloc, q, used)? else {
        return Ok(Allowed::Stopped);
    };
    if takes_by_ref(c.signature.get()) {
        return Ok(Allowed::Stopped);
    }
    Ok(Allowed::Is(c))
}

fn callable_by<'a, Q: Answers>(
    alloc: Global,
    q: &'a Q,
    used: MethodUse,
    sig: &Signature,
) -> Result<Allowed<'a>, NoMemory>
    ensures { IfOk result (λ out. (s : State) (f : Called → Next) → callable_by (Q.queries q.now) used s f sig.now ≡ method_next out (Q.queries q.now) s f) }
{
    if is_open_method(q, &used, sig) {
        return Ok(Allowed::Open);
    }
    if is_refused_method(q.core(used.method.0)) {
        return Ok(Allowed::Stopped);
    }
    callable(alloc, q, used)
}

/// A method that reflection is to call.
#[tactic(auto, unfolding(rules::specs::step_rules::CoreInvoking::invocable))]
pub(crate) fn invocable<'a, Q: Answers>(
    alloc: Global,
    q: &'a Q,
    used: MethodUse,
) -> Result<Allowed<'a>, NoMemory>
    ensures { IfOk result (λ out. (s : State) (f : Called → Next) → invocable (Q.queries q.now) used s f ≡ method_next out (Q.queries q.now) s f) }
{
    let Some(m) = q.method(used.method.0) else {
        return Ok(Allowed::Stuck);
    };
    let Known::Good(sig) = &m.signature else {
        return Ok(Allowed::Stopped);
    };
    callable_by(alloc, q, used, sig)
}
