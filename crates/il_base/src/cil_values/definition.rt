use crate::cil_values::resolved::Code;
use crate::world_model::{Known, TypeExpr};
use crate::{Seq, Text};

/// A method's signature (II.23.2.1). Its types are open.
#[derive(Drop)]
pub struct Signature {
    /// Whether it takes `this`.
    pub this: bool,
    /// How many generic parameters the method has.
    pub own: u32,
    /// The parameters without `this`.
    pub params: Seq<TypeExpr>,
    pub ret: TypeExpr,
}

/// A method of a type (II.22.26).
#[derive(Drop)]
pub struct Method {
    /// II.23.1.10
    pub flags: u16,
    /// The type in whose run it is, by its place in the world.
    pub owner: u32,
    /// Whether it's named `.ctor`.
    pub constructor: bool,
    pub signature: Known<Signature>,
    /// None for a method without a body, which is abstract.
    pub body: Option<Known<Code>>,
}

/// The initial value of a field (II.16.3.2). A static field begins as the number of its bytes where its type is a number, else as
/// zero; InitializeArray takes the bytes whatever the field's type is.
#[derive(Drop)]
pub enum First {
    Blank,
    Bytes(Known<Text>),
    /// The object of the empty text.
    EmptyText,
}

/// A field (II.22.15).
#[derive(Drop)]
pub struct FieldDef {
    /// II.23.1.5
    pub flags: u16,
    pub typ: Known<TypeExpr>,
    pub first: First,
}

/// A property (II.22.34).
#[derive(Drop)]
pub struct PropertyDef {
    pub typ: Known<TypeExpr>,
    /// The method of its first row of MethodSemantics as getter (II.23.1.12), by its place in the world.
    pub getter: Option<u32>,
    /// The method of its first row as setter.
    pub setter: Option<u32>,
}

/// A type definition (II.22.37).
#[derive(Clone, Copy, Debug, PartialEq, Eq)]
pub struct Head {
    /// II.23.1.15
    pub flags: u32,
    /// How many generic parameters it has.
    pub params: u32,
}
