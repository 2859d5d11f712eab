//! The kinds of an attribute constructor's parameters (II.23.3). In go an assembly of a world, with the tables of the world
//! (`mark_tables`, `type_links`), and a signature or the token of a constructor; out come the kinds by which a value is read, as
//! `rules/specs/mark_rules/Attributes` has them.

pub mod constructors;
pub mod kinds;
pub mod prims;
pub mod site;
pub mod system_type;
