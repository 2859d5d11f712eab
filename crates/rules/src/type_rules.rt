//! Definitions of the type system over the assemblies of a world: subtypes, dispatch, searches by
//! name, the text of a type. `specs/type_rules/` has them; here is the data that they speak of.

mod found_member;

pub use found_member::FoundMember;
