use crate::cil_values::path::Path;
use crate::world_model::TypeExpr;
use crate::{Boxed, FieldId, Seq};

/// What a slot of the evaluation stack, an argument, a local or a cell holds (III.1.1). What is long stands in boxes, so that a
/// value has three words.
#[derive(Drop)]
pub enum Value {
    /// The null reference.
    Null,
    /// A 32-bit integer, also for shorter ones, Boolean and Char.
    I4(i32),
    /// A 64-bit integer.
    I8(i64),
    /// A native integer, which has 64 bits.
    Native(i64),
    /// An object, by its place in the heap, from 0.
    Object(u32),
    /// A managed pointer.
    Pointer(Boxed<Path>),
    /// An instance of a value type: the type, and a cell for each instance field, in the order of the rows.
    Struct(Boxed<TypeExpr>, Boxed<Seq<Value>>),
    /// A type's handle, as `ldtoken` gives it (III.4.17).
    Handle(Boxed<TypeExpr>),
    /// A field's handle.
    FieldHandle(FieldId),
}
