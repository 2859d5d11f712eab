use crate::Seq;
use crate::cil_values::frame::Frame;
use crate::cil_values::heap::Heap;
use crate::cil_values::stack::Stack;
use crate::cil_values::value::Value;
use crate::world_model::TypeExpr;

/// A static field of a closed type.
#[derive(Drop)]
pub struct Global {
    /// The field by its place in the world.
    pub field: u32,
    pub owner: TypeExpr,
    pub value: Value,
}

/// How far the initializer of a closed type has come.
#[derive(Clone, Copy, Debug, PartialEq, Eq)]
pub enum Init {
    Begun,
    Ended,
    /// The object of the exception that it raises at each access.
    Failed(u32),
}

/// A type whose initializer was begun.
#[derive(Drop)]
pub struct Started {
    pub typ: TypeExpr,
    pub init: Init,
}

/// What the machine holds between two steps (I.12.3). Objects go by their places in the heap.
#[derive(Drop)]
pub struct State {
    pub heap: Heap,
    /// The static fields that were accessed.
    pub statics: Seq<Global>,
    /// The types whose initializers were begun.
    pub inits: Seq<Started>,
    /// The objects of the texts of `ldstr`, one for each text.
    pub texts: Seq<u32>,
    /// The objects of types, one for each closed type.
    pub types: Seq<u32>,
    pub top: Frame,
    /// The frames that wait for a call, the innermost first.
    pub below: Stack<Frame>,
    /// How many frames were entered so far.
    pub entered: u64,
    /// The units of the input that weren't read yet, the next one first.
    pub input: Stack<u16>,
}
