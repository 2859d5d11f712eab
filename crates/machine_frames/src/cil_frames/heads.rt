//! The definitions that types are of.

ghost use Rattle.std.specs.Prelude.{◌≡◌, ◌<◌};
ghost use Rattle.rules.specs.step_rules.Frames.{definition_of, head_has, head_of, is_abstract_type};

use il_base::cil_values::Head;
use il_base::world_model::TypeExpr;
use il_base::{has_type_flag, type_flags};
use machine_words::cil_queries::Answers;

/// The definition that a type is of, alone or with arguments, by its place in the world.
#[tactic(auto, unfolding(rules::specs::step_rules::Frames::definition_of))]
pub fn definition_of(ty: &TypeExpr) -> Option<u32>
    ensures { result ≡ definition_of ty.now }
{
    match ty {
        TypeExpr::Def(id) => Some(id.0),
        TypeExpr::Inst(id, _) => Some(id.0),
        TypeExpr::Prim(_) => None,
        TypeExpr::Array(_) => None,
        TypeExpr::ByRef(_) => None,
        TypeExpr::Var(_) => None,
        TypeExpr::MVar(_) => None,
        TypeExpr::Mod {
            required: _,
            by: _,
            inner: _,
        } => None,
    }
}

/// The flags and the number of parameters of the definition that a type is of.
#[tactic(auto, unfolding(rules::specs::step_rules::Frames::head_of))]
pub fn head_of<Q: Answers>(q: &Q, ty: &TypeExpr) -> Option<Head>
    ensures { result ≡ head_of (Q.queries q.now) ty.now }
{
    match definition_of(ty) {
        None => None,
        Some(id) => q.head(id),
    }
}

/// Whether there is a definition, and it has a flag of one bit (II.23.1.15).
pub fn head_has(flag: u32, head: Option<Head>) -> bool
    requires { 0 < flag }
    ensures { result ≡ head_has flag head }
{
    match head {
        None => false,
        Some(head) => has_type_flag(head.flags, flag),
    }
}

/// Whether no object is of exactly this type (II.10.1.4).
pub fn is_abstract_type<Q: Answers>(q: &Q, ty: &TypeExpr) -> bool
    ensures { result ≡ is_abstract_type (Q.queries q.now) ty.now }
{
    let head = head_of(q, ty);
    head_has(type_flags::ABSTRACT, head) || head_has(type_flags::INTERFACE, head)
}
