use crate::world_model::{FieldUse, Known, MethodUse, TypeExpr};
use crate::{Form, Seq, Units};

/// An operand with its reference resolved (III.1.2).
#[derive(Drop)]
pub enum Use {
    Nothing,
    /// A constant, or a byte that the instruction has.
    Number(i64),
    /// An argument or a local, from 0.
    Slot(u32),
    /// An IL offset.
    Target(u32),
    /// The IL offsets of a `switch`.
    Targets(Seq<u32>),
    Typ(Known<TypeExpr>),
    Method(Known<MethodUse>),
    Field(Known<FieldUse>),
    /// The text of an `ldstr`.
    Text(Known<Units>),
}

/// An instruction.
#[derive(Drop)]
pub struct Instruction {
    /// The IL offset of its first byte.
    pub at: u32,
    /// The IL offset after its last byte.
    pub next: u32,
    pub form: Form,
    /// One byte, or two where the first is fe: `fe01` is `ceq`.
    pub opcode: u16,
    pub operand: Use,
}

/// What a clause's handler is for (II.25.4.6).
#[derive(Clone, Copy, Debug, PartialEq, Eq)]
pub enum ClauseKind {
    Catch,
    Finally,
    Fault,
}

/// An exception handling clause (II.25.4.6), by IL offsets. A range ends at the offset after its last byte.
#[derive(Drop)]
pub struct Clause {
    pub kind: ClauseKind,
    pub try_at: u32,
    pub try_end: u32,
    pub at: u32,
    pub end: u32,
    /// The type that a catch clause catches.
    pub caught: Known<TypeExpr>,
}

/// A method's body (II.25.4) with its references resolved. Its types are open.
#[derive(Drop)]
pub struct Code {
    /// The types of the locals.
    pub locals: Known<Seq<TypeExpr>>,
    /// The instructions in the order of the bytes.
    pub code: Seq<Instruction>,
    /// The clauses in the order of the section.
    pub clauses: Seq<Clause>,
}
