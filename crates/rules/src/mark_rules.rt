//! The items that a program needs, as definitions in `specs/mark_rules/`: facts, the rules by which one follows from others, and the
//! least set that they derive from the roots. Nothing goes in or comes out.

pub mod member_kinds;
