use crate::Form;

/// Why bytes spell no value: the first byte that no value allows, counted from 0, and what is wrong there.
#[derive(Clone, Copy, Debug, PartialEq, Eq)]
pub struct Fault {
    pub at: u32,
    pub what: u8,
}

/// The inline argument of an instruction: what stands after its opcode (III.1.2), or what the opcode stands for.
#[derive(Clone, Copy, Debug, PartialEq, Eq)]
pub enum Inline {
    /// No bytes and no operand.
    InlineNone,
    /// No bytes: the opcode less this number is a slot.
    FixedSlot(u16),
    /// No bytes: the opcode less this number is a constant, -1 where it is one below.
    FixedNumber(u16),
    /// A slot in one byte.
    ShortInlineVar,
    /// A slot in two bytes.
    InlineVar,
    /// A signed number in one byte.
    ShortInlineI,
    /// A signed number in four bytes.
    InlineI,
    /// A signed number in eight bytes.
    InlineI8,
    /// A metadata token in four bytes.
    InlineTok,
    /// The signed distance of a branch's target from the end of the instruction, in one byte.
    ShortInlineBrTarget,
    /// The same in four bytes.
    InlineBrTarget,
    /// A count in four bytes, and that many distances of four bytes.
    InlineSwitch,
}

/// A run of opcodes of one form that have one kind of inline argument.
#[derive(Clone, Copy, Debug, PartialEq, Eq)]
pub struct Row {
    /// The first opcode of the run.
    pub from: u16,
    /// The last opcode of the run.
    pub to: u16,
    pub form: Form,
    pub inline: Inline,
}

/// A method's header (II.25.4.2, II.25.4.3).
#[derive(Clone, Copy, Debug, PartialEq, Eq)]
pub struct Header {
    /// Whether it has one byte; else it has twelve.
    pub tiny: bool,
    /// InitLocals.
    pub init: bool,
    /// MoreSects: a handler section stands after the code.
    pub sects: bool,
    pub max_stack: u16,
    /// The size of the code in bytes.
    pub size: u32,
    /// The StandAloneSig token of the locals, 0 for none.
    pub locals: u32,
}

/// A range of code, in IL offsets.
#[derive(Clone, Copy, Debug, PartialEq, Eq)]
pub struct Range {
    /// The offset of its first byte.
    pub from: u64,
    /// The offset of the byte past its last.
    pub to: u64,
}
