//! Members of a type by name, and the good signatures of methods. In go a world and rows of its members; out come the members that
//! have a name, as `Roots` and `Dependencies` of `rules/specs/mark_rules` have them.

pub mod mapped;
pub mod signatures;
