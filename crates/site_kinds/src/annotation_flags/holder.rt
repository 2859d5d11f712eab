use rules::link_rules::RowAt;

/// What may have an annotation.
#[derive(Clone, Copy, Debug, PartialEq, Eq)]
pub enum Holder {
    /// A parameter of a method, counted from 0 without `this`.
    Parameter(RowAt, u32),
    /// What a method returns.
    Return(RowAt),
    Field(RowAt),
    /// A generic parameter of a type, counted from 0.
    TypeParameter(RowAt, u32),
    /// A generic parameter of a method, counted from 0.
    MethodParameter(RowAt, u32),
}
