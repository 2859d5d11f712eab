use crate::boxed::Boxed;
use crate::seq::Seq;

/// A type as a signature has it (II.23.2.12).
#[derive(Drop)]
pub enum Sig {
    /// A primitive, `string`, `object` or `void`, by its element type (II.23.1.16).
    Prim(u8),
    /// A class or a value type by its TypeDef, TypeRef or TypeSpec token.
    Named {
        value: bool,
        token: u32,
    },
    /// A vector: one dimension, counted from 0.
    Array(Boxed<Sig>),
    /// A managed reference.
    ByRef(Boxed<Sig>),
    /// A generic class or value type with its arguments.
    Inst {
        value: bool,
        token: u32,
        args: Seq<Sig>,
    },
    /// A generic parameter of the type, counted from 0.
    Var(u32),
    /// A generic parameter of the method, counted from 0.
    MVar(u32),
    /// A custom modifier (II.7.1.1) and the type that it modifies.
    Mod {
        required: bool,
        token: u32,
        inner: Boxed<Sig>,
    },
    /// A pinned local (II.23.2.6).
    Pinned(Boxed<Sig>),
}

/// A method's signature (II.23.2.1), or a property's (II.23.2.5).
#[derive(Drop)]
pub struct MethodSig {
    /// HASTHIS: the method takes `this`, which isn't among the parameters.
    pub this: bool,
    /// The number of generic parameters, 0 for a method that isn't generic.
    pub generic: u32,
    pub ret: Sig,
    pub params: Seq<Sig>,
}
