//! Types and signatures that are the same in every method.

ghost use Rattle.std.specs.Prelude.{IsTrue};
ghost use Rattle.machine_words.specs.cil_closing.Settled.{SettledSlot, SettledReturn, SettledSlots, SettledSignature};

use crate::cil_closing::standing::takes;
use crate::cil_queries::Answers;
use il_base::cil_values::Signature;
use il_base::element;
use il_base::world_model::TypeExpr;

/// Whether a type is a primitive but VOID, or a type definition without parameters.
#[tactic(auto, using(crate::proofs::lemmas::cil_closing::Settled::slots))]
fn is_settled_slot<Q: Answers>(q: &Q, ty: &TypeExpr) -> bool
    ensures { IsTrue result → SettledSlot (Q.queries q.now) ty.now }
{
    match ty {
        TypeExpr::Prim(code) => *code != element::VOID,
        TypeExpr::Def(id) => takes(q, *id, 0),
        TypeExpr::Inst(_, _) => false,
        TypeExpr::Array(_) => false,
        TypeExpr::ByRef(_) => false,
        TypeExpr::Var(_) => false,
        TypeExpr::MVar(_) => false,
        TypeExpr::Mod { .. } => false,
    }
}

/// Whether a type is a primitive, or a type definition without parameters.
#[tactic(auto, using(crate::proofs::lemmas::cil_closing::Settled::returns))]
fn is_settled_return<Q: Answers>(q: &Q, ty: &TypeExpr) -> bool
    ensures { IsTrue result → SettledReturn (Q.queries q.now) ty.now }
{
    match ty {
        TypeExpr::Prim(_) => true,
        TypeExpr::Def(id) => takes(q, *id, 0),
        TypeExpr::Inst(_, _) => false,
        TypeExpr::Array(_) => false,
        TypeExpr::ByRef(_) => false,
        TypeExpr::Var(_) => false,
        TypeExpr::MVar(_) => false,
        TypeExpr::Mod { .. } => false,
    }
}

fn are_settled<Q: Answers>(q: &Q, types: &[TypeExpr]) -> bool
    ensures { IsTrue result → SettledSlots (Q.queries q.now) types.now }
{
    for ty in types {
        if !is_settled_slot(q, ty) {
            return false;
        }
    }
    true
}

/// Whether each type of a signature is, with any arguments put in, as it was.
pub(crate) fn is_settled<Q: Answers>(q: &Q, sig: &Signature) -> bool
    ensures { IsTrue result → SettledSignature (Q.queries q.now) sig.now }
{
    is_settled_return(q, &sig.ret) && are_settled(q, sig.params.as_slice())
}
