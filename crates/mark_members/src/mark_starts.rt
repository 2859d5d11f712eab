//! The items that are marked before any rule is used, but for the types that descriptors name: the primary assembly, its
//! `<Module>`, the entry method, and the assemblies that descriptors keep whole. In goes a world with its tables (`mark_tables`);
//! out come facts, as `rules/specs/mark_rules/Roots` lists them.

pub mod first;
pub mod inputs;
