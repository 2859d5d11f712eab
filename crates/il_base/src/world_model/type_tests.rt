//! Tests on type expressions: equality and levels.

ghost use Rattle.std.specs.Prelude.{◌≡◌, map, nat_eq, nat_lt, ◌&&◌};
ghost use Rattle.il_base.specs.world_model.Exprs.{same_bool, same_expr, same_exprs, deepest, levels};

use crate::TypeId;
use crate::world_model::expr::TypeExpr;

impl TypeExpr {
    /// Whether the other is the same type.
    #[cycle(comparing)]
    #[tactic(auto, using(crate::proofs::lemmas::world_model::SameLayers::comparing))]
    pub fn is_same(&self, other: &TypeExpr) -> bool
        ensures { result ≡ same_expr self.now other.now }
    {
        match self {
            TypeExpr::Prim(code) => match other {
                TypeExpr::Prim(by) => code == by,
                _ => false,
            },
            TypeExpr::Def(id) => match other {
                TypeExpr::Def(by) => id.0 == by.0,
                _ => false,
            },
            TypeExpr::Inst(id, args) => match other {
                TypeExpr::Inst(by, others) => {
                    id.0 == by.0 && TypeExpr::are_same(args.as_slice(), others.as_slice())
                }
                _ => false,
            },
            TypeExpr::Array(inner) => match other {
                TypeExpr::Array(of) => inner.get().is_same(of.get()),
                _ => false,
            },
            TypeExpr::ByRef(inner) => match other {
                TypeExpr::ByRef(to) => inner.get().is_same(to.get()),
                _ => false,
            },
            TypeExpr::Var(n) => match other {
                TypeExpr::Var(m) => n == m,
                _ => false,
            },
            TypeExpr::MVar(n) => match other {
                TypeExpr::MVar(m) => n == m,
                _ => false,
            },
            TypeExpr::Mod {
                required,
                by,
                inner,
            } => match other {
                TypeExpr::Mod {
                    required: asked,
                    by: with,
                    inner: of,
                } => {
                    same_modifier(*required, *by, *asked, *with) && inner.get().is_same(of.get())
                }
                _ => false,
            },
        }
    }

    /// Whether these are the same types in the same order.
    #[cycle(comparing)]
    #[tactic(auto, unfolding(crate::specs::world_model::Exprs::same_exprs))]
    pub fn are_same(types: &[TypeExpr], others: &[TypeExpr]) -> bool
        ensures { result ≡ same_exprs types.now others.now }
    {
        if types.len() != others.len() {
            return false;
        }
        for (i, one) in types.iter().enumerate() {
            if !one.is_same(&others[i]) {
                return false;
            }
        }
        true
    }

    /// Whether the type has more than `most` levels. A primitive, a definition and a parameter have one; any other type
    /// has one more than the deepest of its parts.
    #[cycle(measuring)]
    #[tactic(auto, using(crate::proofs::lemmas::world_model::Levels::deeper))]
    pub fn is_deeper(&self, most: u32) -> bool
        ensures { result ≡ nat_lt most (levels self.now) }
    {
        if most == 0 {
            return true;
        }
        let below = most - 1;
        match self {
            TypeExpr::Prim(_) => false,
            TypeExpr::Def(_) => false,
            TypeExpr::Inst(_, args) => TypeExpr::any_deeper(args.as_slice(), below),
            TypeExpr::Array(inner) => inner.get().is_deeper(below),
            TypeExpr::ByRef(inner) => inner.get().is_deeper(below),
            TypeExpr::Var(_) => false,
            TypeExpr::MVar(_) => false,
            TypeExpr::Mod { inner, .. } => inner.get().is_deeper(below),
        }
    }

    #[cycle(measuring)]
    fn any_deeper(types: &[TypeExpr], most: u32) -> bool
        ensures { result ≡ nat_lt most (deepest (map levels types.now)) }
    {
        for one in types {
            if one.is_deeper(most) {
                return true;
            }
        }
        false
    }
}

fn same_modifier(required: bool, by: TypeId, asked: bool, with: TypeId) -> bool
    ensures { result ≡ (same_bool required asked && nat_eq by.0 with.0) }
{
    required == asked && by.0 == with.0
}
