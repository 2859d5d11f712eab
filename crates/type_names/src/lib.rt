//! The texts of types, their own names and namespaces, and types by the names that texts give them. Records of assemblies and a
//! type go in, and `type_rules`' `text`, `label` or `space` of it comes out; or the name of a type, and the id that `find_type`
//! has for it.
#![tactic(auto)]

mod assemblies;
mod chain;
mod full_name;
mod labels;
mod names;
mod nested;
mod rows;
mod texts;

pub use names::TypeNames;
pub use texts::text;
