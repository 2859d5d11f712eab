//! Type references to the core library (II.22.38). In go an assembly and a token; out comes whether the reference is to the core
//! library, itself or through its enclosers, as `rules/specs/mark_rules/Attributes` has it.

pub mod refs;
