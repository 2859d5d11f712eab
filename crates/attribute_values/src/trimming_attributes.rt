//! The custom attributes of trimming, known by their full name wherever they are defined. In go an assembly of a world, with what
//! its attributes are read by (`attribute_values`), and a row of CustomAttribute or the token of its parent; out comes whether it
//! is such an attribute, and the kinds of members that an annotation names, as `rules/specs/mark_rules/Annotations` has them.

pub mod kinds;
pub mod names;
pub mod texts;
