ghost use Rattle.std.specs.Prelude.{◌≡◌};
ghost use Rattle.il_base.specs.blob_grammar.Signatures.{element};

/// What the first byte of a type says (II.23.1.16).
#[derive(Clone, Copy, Debug, PartialEq, Eq)]
pub enum Element {
    /// A type of its own: a primitive that isn't a float, `string`, `object` or `void`.
    Primitive,
    /// R4 or R8.
    Float,
    ValueType,
    Class,
    Var,
    MVar,
    /// SZARRAY.
    Vector,
    ByRef,
    GenericInst,
    /// CMOD_REQD.
    Required,
    /// CMOD_OPT.
    Optional,
    Pinned,
    /// No type begins so.
    Other,
}

impl Element {
    /// What the first byte of a type says (II.23.1.16).
    pub fn of(byte: u8) -> Element
        ensures { result ≡ element byte }
    {
        match byte {
            0x01..=0x0b | 0x0e | 0x18 | 0x19 | 0x1c => Element::Primitive,
            0x0c | 0x0d => Element::Float,
            0x10 => Element::ByRef,
            0x11 => Element::ValueType,
            0x12 => Element::Class,
            0x13 => Element::Var,
            0x15 => Element::GenericInst,
            0x1d => Element::Vector,
            0x1e => Element::MVar,
            0x1f => Element::Required,
            0x20 => Element::Optional,
            0x45 => Element::Pinned,
            _ => Element::Other,
        }
    }
}
