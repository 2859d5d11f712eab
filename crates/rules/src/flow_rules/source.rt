use il_base::{FieldId, MethodId, TypeId, Units};

/// What is known of where a value comes from.
#[derive(Drop)]
pub enum Source {
    /// The `System.Type` object of a type.
    KnownType(TypeId),
    /// The runtime handle of a type.
    KnownHandle(TypeId),
    /// A text of the code.
    KnownText(Units),
    Null,
    /// What is passed for a parameter of the method, counted from 0 without `this`.
    Parameter(u32),
    /// What a method returned.
    Return(MethodId),
    /// What a field had.
    Field(FieldId),
    /// The type that is put in for a generic parameter of a type, counted from 0.
    TypeParam(TypeId, u32),
    /// The type that is put in for a generic parameter of the method, counted from 0.
    MethodParam(u32),
    /// Anything else.
    Opaque,
}
