use il_base::{Boxed, Text};

/// What an argument of an attribute holds (II.23.3).
#[derive(Drop)]
pub enum ParamKind {
    /// A number by its element type (II.23.1.16): BOOLEAN 02 to U8 0b, R4 0c and R8 0d.
    Prim(u8),
    Text,
    /// A type by its name.
    Typ,
    /// A value with its kind: the parameter is an `object`.
    Boxed,
    Enum {
        /// As the value writes it. Empty for the kind of a parameter.
        name: Text,
        /// The underlying type's size in bytes: 1, 2, 4 or 8. Any other counts as 4.
        size: u8,
    },
    /// A vector of such values.
    List(Boxed<ParamKind>),
}
