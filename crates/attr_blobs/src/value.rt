use crate::kind::ParamKind;
use crate::name::TypeName;
use il_base::{Boxed, Seq, Text};

/// An argument of an attribute.
#[derive(Drop)]
pub enum Arg {
    /// The bits of a number, a character, a boolean value or an enum's value.
    Number(u64),
    /// A text in UTF-8, None for null.
    Text(Option<Text>),
    /// A type's name in UTF-8, None for null.
    Typ(Option<Text>),
    /// A value with its kind.
    Boxed(ParamKind, Boxed<Arg>),
    /// The elements of a vector, None for null.
    List(Option<Seq<Arg>>),
}

/// A field or a property that an attribute sets.
#[derive(Drop)]
pub struct NamedArg {
    /// Whether it is a field.
    pub field: bool,
    /// In UTF-8.
    pub name: Text,
    pub kind: ParamKind,
    pub value: Arg,
}

/// The value of a custom attribute (II.23.3).
#[derive(Drop)]
pub struct AttrValue {
    /// The constructor's arguments.
    pub fixed: Seq<Arg>,
    pub named: Seq<NamedArg>,
}

/// The size of an enum's underlying type.
#[derive(Drop)]
pub struct EnumSize {
    pub name: TypeName,
    /// In bytes: 1, 2, 4 or 8. Any other counts as 4.
    pub size: u8,
}
