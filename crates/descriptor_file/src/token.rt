use il_base::Text;

/// The elements of a descriptor.
#[derive(Clone, Copy, Debug, PartialEq, Eq)]
pub(crate) enum Element {
    Linker,
    Assembly,
    Type,
    Method,
    Field,
    Property,
    Event,
}

/// The attributes of a descriptor's elements.
#[derive(Clone, Copy, Debug, PartialEq, Eq)]
pub(crate) enum Attribute {
    FullName,
    Preserve,
    Required,
    Name,
    Signature,
}

#[derive(Debug, Drop)]
pub(crate) enum Token {
    /// `<NAME`.
    Start(Element),
    /// `</NAME`.
    Stop(Element),
    /// An attribute and its value.
    Value(Attribute, Text),
    /// `>`.
    End,
    /// `/>`.
    EmptyEnd,
    Comment,
}

/// A token at the front of bytes, and how many of them it takes.
#[derive(Debug, Drop)]
pub(crate) struct Piece {
    pub(crate) token: Token,
    pub(crate) size: usize,
}
