use il_base::{FieldId, Item, MethodId, TypeId};

/// What a site asks for. Parameters are counted from 0 without `this`.
#[derive(Clone, Copy, Debug, PartialEq, Eq)]
pub enum Target {
    /// An argument for an annotated parameter.
    Param(MethodId, u32),
    /// What a method with an annotated return gives back.
    Return(MethodId),
    /// What an annotated field gets.
    Field(FieldId),
    /// The object that a method is called on.
    This(MethodId),
    /// The argument for a generic parameter of a type, counted from 0.
    TypeArg(TypeId, u32),
    /// The argument for a generic parameter of a method, counted from 0.
    MethodArg(MethodId, u32),
    /// The name that a method looks for.
    Name(MethodId),
    /// A use of a method that needs unreferenced code.
    Unreferenced(MethodId),
    /// A method that another overrides.
    Override(MethodId),
    /// An item that reflection may reach.
    Reflection(Item),
}
