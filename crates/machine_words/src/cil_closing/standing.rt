//! How a type counts once it is closed.

ghost use Rattle.std.specs.Prelude.{◌≡◌, length};
ghost use Rattle.std.specs.List.{list_all};
ghost use Rattle.rules.specs.step_rules.Closing.{standing, is_whole, is_sound, takes};

use crate::cil_queries::Answers;
use il_base::world_model::TypeExpr;
use il_base::{TypeId, element};

/// Whether a type definition has this many generic parameters.
pub(crate) fn takes<Q: Answers>(q: &Q, ty: TypeId, count: usize) -> bool
    ensures { result ≡ takes ((Q.queries q.now).head ty.0) count }
{
    match q.head(ty.0) {
        None => false,
        Some(head) => head.params as usize == count,
    }
}

/// Whether a type is closed and can be an argument, an element or a field: neither VOID nor a reference, each generic type
/// with as many arguments as it has parameters.
#[cycle(whole)]
#[tactic(auto, using(crate::proofs::lemmas::cil_closing::StandingLayers::standing_whole))]
pub(crate) fn is_whole<Q: Answers>(q: &Q, ty: &TypeExpr) -> bool
    ensures { result ≡ is_whole (standing (Q.queries q.now).head ty.now) }
{
    match ty {
        TypeExpr::Prim(code) => *code != element::VOID,
        TypeExpr::Def(id) => takes(q, *id, 0),
        TypeExpr::Inst(id, args) => takes(q, *id, args.len()) && are_whole(q, args.as_slice()),
        TypeExpr::Array(of) => is_whole(q, of.get()),
        TypeExpr::ByRef(_) => false,
        TypeExpr::Var(_) => false,
        TypeExpr::MVar(_) => false,
        TypeExpr::Mod {
            required: _,
            by: _,
            inner,
        } => is_whole(q, inner.get()),
    }
}

/// Whether each of some types is so.
#[cycle(whole)]
pub fn are_whole<Q: Answers>(q: &Q, types: &[TypeExpr]) -> bool
    ensures { result ≡ list_all (λ e. is_whole (standing (Q.queries q.now).head e)) types.now }
{
    for one in types {
        if !is_whole(q, one) {
            return false;
        }
    }
    true
}

/// Whether a type is closed, each generic type with as many arguments as it has parameters.
#[tactic(auto, using(crate::proofs::lemmas::cil_closing::StandingLayers::standing_sound))]
pub(crate) fn is_sound<Q: Answers>(q: &Q, ty: &TypeExpr) -> bool
    ensures { result ≡ is_sound (standing (Q.queries q.now).head ty.now) }
{
    match ty {
        TypeExpr::Prim(_) => true,
        TypeExpr::Def(id) => takes(q, *id, 0),
        TypeExpr::Inst(id, args) => takes(q, *id, args.len()) && are_whole(q, args.as_slice()),
        TypeExpr::Array(of) => is_whole(q, of.get()),
        TypeExpr::ByRef(to) => is_sound(q, to.get()),
        TypeExpr::Var(_) => false,
        TypeExpr::MVar(_) => false,
        TypeExpr::Mod {
            required: _,
            by: _,
            inner,
        } => is_sound(q, inner.get()),
    }
}
