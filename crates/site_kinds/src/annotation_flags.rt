//! What annotations say of parameters, returns, fields and generic parameters: the kinds of members that reflection may ask for;
//! and which methods need code that nothing refers to. In go a world with its tables (`mark_tables`, `attribute_values`) and what
//! has an annotation; the results are those of `specs/annotation_flags/Flags` and `rules/specs/mark_rules/Annotations`.

pub mod flags;
pub mod generic;
pub mod holder;
pub mod slots;
pub mod types;
pub mod unreferenced;
