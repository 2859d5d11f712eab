use crate::world_model::TypeExpr;

/// What a search for a type by its name gives.
#[derive(Drop)]
pub enum Sought {
    Found(TypeExpr),
    /// No type has this name.
    Missing,
    /// The name of an array, a pointer, a reference or a constructed type: it isn't looked for.
    Unread,
}
