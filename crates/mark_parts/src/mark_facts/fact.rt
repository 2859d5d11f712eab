use il_base::{Item, TypeId};

/// A fact of marking, on an item or a type.
#[derive(Clone, Copy, Debug, PartialEq, Eq)]
pub enum Fact {
    /// The item is needed.
    Marked(Item),
    /// An object or a value of the type may be made.
    Instantiated(TypeId),
    /// Reflection may reach the item.
    Reflected(Item),
    /// The type's name or identity can be seen when the program runs.
    Shown(TypeId),
}
