use crate::seq::Seq;

/// The kinds of instruction (III.3, III.4), many opcodes to one kind.
#[derive(Clone, Copy, Debug, PartialEq, Eq)]
pub enum Form {
    Nop,
    LdArg,
    LdArgA,
    StArg,
    LdLoc,
    LdLocA,
    StLoc,
    LdNull,
    LdI4,
    LdI8,
    LdStr,
    Dup,
    Pop,
    Br,
    BrIf,
    Switch,
    Leave,
    EndFinally,
    Binary,
    Unary,
    Convert,
    Call,
    Ret,
    NewObj,
    Throw,
    Cast,
    Box,
    Unbox,
    Field,
    NewArr,
    Elem,
    Indirect,
    LdToken,
    Prefix,
}

/// What stands after an opcode, or what a short opcode stands for.
#[derive(Drop)]
pub enum Operand {
    None,
    /// A constant, or a byte that the instruction has.
    Number(i64),
    /// An argument or a local, counted from 0.
    Slot(u32),
    /// A metadata token.
    Token(u32),
    /// The IL offset of a branch's target, modulo 2^32.
    Target(u32),
    /// The targets of a `switch`.
    Targets(Seq<u32>),
}

/// An instruction.
#[derive(Drop)]
pub struct Instr {
    /// Its IL offset in bytes from the start of the code.
    pub at: u32,
    pub form: Form,
    /// One byte, or two where the first is fe: `fe01` is `ceq`.
    pub opcode: u16,
    pub operand: Operand,
}

/// An exception handling clause (II.25.4.6). Offsets and lengths are in bytes of IL.
#[derive(Clone, Copy, Debug, PartialEq, Eq)]
pub struct Handler {
    /// 0 catch, 2 finally, 4 fault.
    pub kind: u8,
    pub try_at: u32,
    pub try_len: u32,
    pub at: u32,
    pub len: u32,
    /// The token of the caught type of a catch clause, else what stands there.
    pub token: u32,
}

/// A method body (II.25.4).
#[derive(Drop)]
pub struct Body {
    /// Whether the header has one byte.
    pub tiny: bool,
    /// InitLocals.
    pub init: bool,
    /// The most slots of the evaluation stack, 8 with a tiny header.
    pub max_stack: u16,
    /// The StandAloneSig token of the locals, 0 for none.
    pub locals: u32,
    /// The instructions in the order of the bytes.
    pub code: Seq<Instr>,
    /// Whether the handler section is fat.
    pub fat_handlers: bool,
    pub handlers: Seq<Handler>,
}
