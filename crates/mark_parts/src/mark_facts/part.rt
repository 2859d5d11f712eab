use il_base::world_model::{FieldUse, Known, MethodUse, TypeExpr};

/// A type or a member that a part of an item names.
#[derive(Drop)]
pub enum Named {
    Type(TypeExpr),
    Method(MethodUse),
    Field(FieldUse),
}

/// A part of an item.
#[derive(Drop)]
pub struct Part {
    /// The row that has it, by its token.
    pub token: u32,
    /// For an operand the IL offset in bytes of its instruction, for others 0.
    pub at: u32,
    pub named: Known<Named>,
}
