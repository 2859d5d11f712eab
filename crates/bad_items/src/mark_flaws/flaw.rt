use il_base::world_model::BadKind;

/// A fault of an item, and its place.
#[derive(Clone, Copy, Debug, PartialEq, Eq)]
pub struct Flaw {
    /// The assembly, from 0.
    pub asm: u32,
    pub token: u32,
    /// Of an operand the offset in bytes of its instruction, else 0.
    pub offset: u32,
    pub kind: BadKind,
}
