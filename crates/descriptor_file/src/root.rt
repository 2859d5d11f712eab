use il_base::{Seq, Text};

/// What a `type` element keeps beside its listed members: values of `Root::preserve`.
pub mod preserve {
    pub const NOTHING: u8 = 0;

    pub const FIELDS: u8 = 1;

    pub const METHODS: u8 = 2;

    pub const ALL: u8 = 3;
}

/// Kinds of members: values of `RootMember::kind`.
pub mod member {
    pub const METHOD: u8 = 1;

    pub const FIELD: u8 = 2;

    pub const PROPERTY: u8 = 3;

    pub const EVENT: u8 = 4;
}

/// A member of a type that a descriptor names.
#[derive(Debug, Drop)]
pub struct RootMember {
    /// One of `member`.
    pub kind: u8,
    /// Whether `text` is a signature, as `RETURN NAME(TYPE,TYPE)` or `TYPE NAME`, and not a name.
    pub by_signature: bool,
    /// The name or the signature, in UTF-8.
    pub text: Text,
    /// The place of the `<` of its element in the file, in bytes.
    pub at: u32,
}

/// What a descriptor keeps: a type with its members, or a whole assembly.
#[derive(Debug, Drop)]
pub struct Root {
    /// The simple name of the assembly, in UTF-8: what stands before the first comma of its `fullname`.
    pub asm: Text,
    /// The full name of the type, with `/` before nested ones; None for all of the assembly.
    pub typ: Option<Text>,
    /// False where the type and its members are kept only if the type is kept for another reason.
    pub required: bool,
    /// One of `preserve`.
    pub preserve: u8,
    /// The members that are listed, in the file's order.
    pub members: Seq<RootMember>,
    /// The place of the `<` of the `type` element in the file, in bytes, or of the `assembly` element without `typ`.
    pub at: u32,
    /// The number of the descriptor: 0 as it is read here, and the caller sets it.
    pub source: u32,
}
