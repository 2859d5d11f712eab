use crate::cil_values::value::Value;
use crate::world_model::TypeExpr;
use crate::{Item, Seq, Units};

/// An object of the heap.
#[derive(Drop)]
pub enum Obj {
    /// An instance of a class: the class, and its cells, those of the bases first.
    Instance { of: TypeExpr, cells: Seq<Value> },
    /// A boxed value (III.4.1) and its type.
    Boxed { of: TypeExpr, value: Value },
    /// A vector (I.8.9.1): the type of its elements, and these.
    Array { of: TypeExpr, cells: Seq<Value> },
    /// A string, by its UTF-16 units.
    Str(Units),
    /// The object of a type.
    TypeOf(TypeExpr),
    /// The object of a method, a field or a property, and the type that it is of.
    Member(Item, TypeExpr),
}
