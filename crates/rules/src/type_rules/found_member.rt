use il_base::Item;
use il_base::world_model::TypeExpr;

/// A member that a search by reflection found.
#[derive(Drop)]
pub struct FoundMember {
    /// A method, a field, a property or an event.
    pub item: Item,
    /// The type that has it: the one that was searched or a base of it, with arguments put in.
    pub owner: TypeExpr,
}
