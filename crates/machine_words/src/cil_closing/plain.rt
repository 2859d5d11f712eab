//! Types without their modifiers (II.7.1), and the arguments of generic types.

ghost use Rattle.std.specs.Prelude.{◌≡◌};
ghost use Rattle.rules.specs.step_rules.Closing.{plain, is_void};
ghost use Rattle.rules.specs.step_rules.Words.{args_of};

use il_base::world_model::TypeExpr;
use il_base::{Boxed, element};

/// A type without the modifiers around it; those inside arguments stay.
#[cycle(stripping)]
#[tactic(auto, using(crate::proofs::lemmas::cil_closing::PlainLayers::stripping))]
pub fn without_modifiers(ty: TypeExpr) -> TypeExpr
    ensures { result ≡ plain ty }
{
    match ty {
        TypeExpr::Prim(code) => TypeExpr::Prim(code),
        TypeExpr::Def(id) => TypeExpr::Def(id),
        TypeExpr::Inst(id, args) => TypeExpr::Inst(id, args),
        TypeExpr::Array(of) => TypeExpr::Array(of),
        TypeExpr::ByRef(to) => TypeExpr::ByRef(to),
        TypeExpr::Var(n) => TypeExpr::Var(n),
        TypeExpr::MVar(n) => TypeExpr::MVar(n),
        TypeExpr::Mod {
            required: _,
            by: _,
            inner,
        } => stripped(inner),
    }
}

#[cycle(stripping)]
fn stripped(ty: Boxed<TypeExpr>) -> TypeExpr
    ensures { result ≡ plain ty }
{
    without_modifiers(ty.into_inner())
}

/// Whether a type is VOID, modifiers aside.
#[tactic(auto, using(crate::proofs::lemmas::cil_closing::PlainLayers::telling_void))]
pub fn is_void(ty: &TypeExpr) -> bool
    ensures { result ≡ is_void ty.now }
{
    match ty {
        TypeExpr::Prim(code) => *code == element::VOID,
        TypeExpr::Def(_) => false,
        TypeExpr::Inst(_, _) => false,
        TypeExpr::Array(_) => false,
        TypeExpr::ByRef(_) => false,
        TypeExpr::Var(_) => false,
        TypeExpr::MVar(_) => false,
        TypeExpr::Mod {
            required: _,
            by: _,
            inner,
        } => is_void(inner.get()),
    }
}

/// The arguments of a generic type; none of any other.
#[tactic(auto, unfolding(rules::specs::step_rules::Words::args_of))]
pub fn args_of(ty: &TypeExpr) -> &[TypeExpr]
    ensures { result.now ≡ args_of ty.now }
{
    match ty {
        TypeExpr::Inst(_, args) => args.as_slice(),
        TypeExpr::Prim(_) => &[],
        TypeExpr::Def(_) => &[],
        TypeExpr::Array(_) => &[],
        TypeExpr::ByRef(_) => &[],
        TypeExpr::Var(_) => &[],
        TypeExpr::MVar(_) => &[],
        TypeExpr::Mod {
            required: _,
            by: _,
            inner: _,
        } => &[],
    }
}
