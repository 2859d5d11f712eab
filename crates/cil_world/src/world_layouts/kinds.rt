//! What is kept of a type definition.

use il_base::Seq;

/// Which of the handles of the core library a type is.
#[derive(Clone, Copy, Debug, PartialEq, Eq)]
pub enum Handle {
    /// RuntimeTypeHandle.
    OfType,
    /// RuntimeFieldHandle.
    OfField,
}

/// What values of a type definition are (II.13, II.14.3).
#[derive(Drop)]
pub struct TypeKind {
    /// Whether it is a value type.
    pub value: bool,
    /// Whether it is an enum.
    pub enumeration: bool,
    pub handle: Option<Handle>,
    /// The ids of its instance fields, in the order of their rows.
    pub fields: Seq<u32>,
}
