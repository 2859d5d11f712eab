//! The rules of marking that find items by attributes, by texts, by descriptors and by the flow of values (`named_rules`), for a
//! world that a link gave. In go the world with its tables (`mark_roots`, `attribute_values`, `nested_types`, `type_system`) and the
//! elements of descriptors; out come facts, as `rules/specs/mark_rules` lists them.

mod world;

pub use world::NamedWorld;
