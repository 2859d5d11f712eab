//! The sizes of primitive types (II.23.1.16).

ghost use Rattle.std.specs.Prelude.{◌≡◌};
ghost use Rattle.il_base.specs.declared.world_model.expr.TypeExpr.{out-TypeExpr};
ghost use Rattle.rules.specs.mark_rules.Attributes.{size_of_prim, prim_size, expr_size};

use il_base::element;
use il_base::world_model::{Known, TypeExpr};

/// The size of a primitive type in bytes; 4 for those that no enum has.
pub fn size_of_prim(n: u8) -> u8
    ensures { result ≡ size_of_prim n }
{
    if n == element::BOOLEAN || n == element::I1 || n == element::U1 {
        return 1;
    }
    if n == element::CHAR || n == element::I2 || n == element::U2 {
        return 2;
    }
    if n == element::I8 || n == element::U8 {
        return 8;
    }
    4
}

/// The size of a type in bytes, if it is primitive; 4 for any other.
fn prim_size(ty: &TypeExpr) -> u8
    ensures { result ≡ prim_size (out-TypeExpr ty.now) }
{
    match ty {
        TypeExpr::Prim(n) => size_of_prim(*n),
        TypeExpr::Def(_) => 4,
        TypeExpr::Inst(_, _) => 4,
        TypeExpr::Array(_) => 4,
        TypeExpr::ByRef(_) => 4,
        TypeExpr::Var(_) => 4,
        TypeExpr::MVar(_) => 4,
        TypeExpr::Mod { .. } => 4,
    }
}

/// The size of a type that is known, in bytes.
pub(crate) fn expr_size(ty: &Known<TypeExpr>) -> u8
    ensures { result ≡ expr_size ty.now }
{
    match ty {
        Known::Good(ty) => prim_size(ty),
        Known::Bad(_) => 4,
    }
}
