use crate::world_model::TypeExpr;
use crate::{Boxed, FieldId, Seq};

/// Where a managed pointer begins (I.12.3.2.1). Frames have their numbers, objects their places in the heap; all numbers
/// count from 0.
#[derive(Drop)]
pub enum Root {
    /// An argument of a frame: the frame's number, the argument's.
    Arg(u64, u32),
    /// A local of a frame: the frame's number, the local's.
    Local(u64, u32),
    /// The value in a box.
    Boxed(u32),
    /// An element of an array: the array, the index.
    Element(u32, u32),
    /// A field of an instance of a class, by its identity: two types of one hierarchy never share one.
    Field(u32, FieldId),
    /// A static field of a closed type.
    Static(FieldId, Boxed<TypeExpr>),
}

/// A managed pointer (III.1.1.5): a place that holds a value.
#[derive(Drop)]
pub struct Path {
    pub root: Root,
    /// The way from there into structs: the number of a cell at each step, from 0.
    pub steps: Seq<u32>,
    /// The type of the place.
    pub of: TypeExpr,
}
