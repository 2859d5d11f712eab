use crate::{Boxed, FieldId, MethodId, MethodSig, Seq, Sig, TypeId};

/// A type whose references are resolved (I.8.9).
#[derive(Drop)]
pub enum TypeExpr {
    /// A primitive, `string`, `object` or `void`, by its element type (II.23.1.16).
    Prim(u8),
    /// A type that isn't generic, or a generic type's definition.
    Def(TypeId),
    /// A generic type with its arguments.
    Inst(TypeId, Seq<TypeExpr>),
    /// A vector of this element.
    Array(Boxed<TypeExpr>),
    /// A managed reference.
    ByRef(Boxed<TypeExpr>),
    /// A generic parameter of the type, counted from 0.
    Var(u32),
    /// A generic parameter of the method, counted from 0.
    MVar(u32),
    /// A modified type.
    Mod {
        required: bool,
        by: TypeId,
        inner: Boxed<TypeExpr>,
    },
}

/// A method that an operand names.
#[derive(Drop)]
pub struct MethodUse {
    pub method: MethodId,
    /// The type in which the method was found, with its arguments.
    pub owner: TypeExpr,
    /// The arguments of the method itself.
    pub args: Seq<TypeExpr>,
}

/// A field that an operand names.
#[derive(Drop)]
pub struct FieldUse {
    pub field: FieldId,
    /// The type in which the field was found, with its arguments.
    pub owner: TypeExpr,
}

/// The signature of a member reference (II.22.25).
#[derive(Drop)]
pub enum MemberSig {
    Field(Sig),
    Method(MethodSig),
}
