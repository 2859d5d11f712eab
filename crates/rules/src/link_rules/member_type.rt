use il_base::Seq;
use il_base::world_model::TypeExpr;

/// The signature of a method, its types resolved.
#[derive(Drop)]
pub struct MethodType {
    /// HASTHIS (II.23.2.1).
    pub this: bool,
    /// The number of generic parameters.
    pub generic: u32,
    pub ret: TypeExpr,
    pub params: Seq<TypeExpr>,
}
