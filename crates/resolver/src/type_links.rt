//! The type links of several assemblies: what each TypeRef, TypeDef and TypeSpec token names, as `link_rules` defines it, and
//! the index of types by name that they are found with.

mod assemblies;
mod definitions;
mod enclosers;
mod first;
mod forwarders;
mod index;
mod links;
mod names;
mod references;

pub use assemblies::assembly_named;
pub use index::TypeIndex;
pub use links::type_links;
pub use names::TypeName;
