use crate::cil_values::core_call::CoreCall;
use crate::cil_values::stack::Stack;
use crate::cil_values::value::Value;
use crate::world_model::{MethodUse, TypeExpr};
use crate::{Boxed, Seq};

/// What a prefix says of the next instruction (III.2).
#[derive(Drop)]
pub enum Prefix {
    None,
    /// `constrained.`, with its closed type.
    Constrained(Boxed<TypeExpr>),
    Readonly,
}

/// An exception on its way to the handler that was found for it.
#[derive(Drop)]
pub struct Unwinding {
    /// The object of the exception, in the frame where it is now.
    pub object: u32,
    /// What it becomes in each frame further down that an initializer's frame ends in, the nearest first.
    pub later: Seq<u32>,
    /// The number of the frame that catches it.
    pub frame: u64,
    /// The catch clause there, by its place among the clauses.
    pub clause: u32,
    /// The finally and fault clauses of the present frame that are still to run, the next one first.
    pub left: Stack<u32>,
}

/// What entered a handler.
#[derive(Drop)]
pub enum Reason {
    /// The object of the exception.
    Caught(u32),
    /// A `leave`: the finally clauses that are still to run, the next one first, and its target.
    Leaving(Stack<u32>, u32),
    Unwinding(Unwinding),
}

/// A handler that runs, by its clause's place among the clauses.
#[derive(Drop)]
pub struct Running {
    pub clause: u32,
    pub reason: Reason,
}

/// What is to be done when a frame's method returns. What is long stands in boxes, so that a frame is short.
#[derive(Drop)]
pub enum Waits {
    Nothing,
    /// `newobj` gives this object.
    Makes(u32),
    /// `newobj` gives the value in this box.
    MakesValue(u32),
    /// The initializer of this type has ended, and the instruction comes again.
    Starts(Boxed<TypeExpr>),
    /// The initializer of the entry's type has ended, and the entry is entered.
    Opens(Boxed<TypeExpr>, Boxed<MethodUse>),
    /// A member of the core library, with its arguments, goes on with the result of the method that it called.
    Core(CoreCall, Boxed<Seq<Value>>),
}

/// A method that runs, in a closed use of it.
#[derive(Drop)]
pub struct Frame {
    /// How many frames were entered before it.
    pub number: u64,
    pub method: MethodUse,
    /// `this` first, where there is one.
    pub args: Seq<Value>,
    pub locals: Seq<Value>,
    /// The evaluation stack, its top first.
    pub stack: Stack<Value>,
    /// The IL offset of the instruction that is next, or that waits for a call.
    pub at: u32,
    pub prefix: Prefix,
    /// The handlers that run, the innermost first.
    pub running: Stack<Running>,
    pub waits: Waits,
}
