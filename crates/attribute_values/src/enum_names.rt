//! The enums of a world by each name that finds them from an assembly, with the sizes of their values (II.14.3). In go a world with
//! its tables (`mark_tables`, `type_names`) and the place of an assembly; out comes the list by which values of custom attributes
//! are read, as `enums_from` of `rules/specs/mark_rules/Attributes` has it.

pub mod assembly_names;
pub mod enums;
pub mod full_names;
pub mod named;
pub mod paths;
