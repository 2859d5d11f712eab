//! The answers of planning.

use il_base::{Seq, Text, TypeId};

/// A type that gets a new name.
#[derive(Drop)]
pub struct NewName {
    pub typ: TypeId,
    /// Without its namespace, which stays.
    pub name: Text,
}

/// The changes of a merge, besides leaving out rows.
#[derive(Drop)]
pub struct Plan {
    /// In the order of the kept types.
    pub names: Seq<NewName>,
    /// Whether public types of all inputs but the first become internal.
    pub internal: bool,
}

/// The errors of planning.
#[derive(Clone, Copy, Debug, PartialEq, Eq)]
pub enum PlanError {
    /// Two kept types of different assemblies have one full name, and the second is public or shown.
    Collision { first: TypeId, second: TypeId },
    NoMemory,
}

/// A plan, or the collision in its way.
#[derive(Drop)]
pub(crate) enum Planned {
    Plan(Plan),
    Collision(TypeId, TypeId),
}
