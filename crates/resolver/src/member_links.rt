//! The links of the method and field tokens of several assemblies, as `methods_of` and `fields_of` of
//! `rules/specs/link_rules/Linked` define them. In go the assemblies and the links of their type tokens; out comes a link for each
//! MethodDef, MemberRef and MethodSpec row, and for each Field and MemberRef row.

mod definitions;
mod instances;
mod links;
mod references;
mod uses;

pub use links::{field_links, method_links};
