use crate::Seq;
use crate::cil_values::value::Value;
use crate::world_model::TypeExpr;

/// A cell of an instance of a class.
#[derive(Clone, Copy, Debug, PartialEq, Eq)]
pub enum Cell {
    /// A field's, by the field's place in the world.
    Field(u32),
    /// The message of an exception.
    Message,
    /// The inner exception of an exception.
    Inner,
}

/// A cell with its closed type and what it holds at first.
#[derive(Drop)]
pub struct Layout {
    pub cell: Cell,
    pub typ: TypeExpr,
    pub zero: Value,
}

/// What a place of a closed type holds.
#[derive(Drop)]
pub enum Shape {
    /// Null or an object.
    Reference,
    /// Null or a managed pointer.
    Pointer,
    /// A number, Boolean or Char, or an enum of one, by its element type (II.23.1.16).
    Integer(u8),
    /// A RuntimeTypeHandle.
    TypeHandle,
    /// A RuntimeFieldHandle.
    FieldHandle,
    /// Any other value type, by the cells of its instances.
    Structure(Seq<Layout>),
    /// Nothing: VOID, a value type with a field that has no meaning, or anything that is no type.
    NoValue,
}
