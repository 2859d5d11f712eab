//! The references that an output makes, each once, in the order in which they are first met: in go what is met (`met_forms`), the
//! world's keys (`world_keys`) and the scopes of references (`reference_scopes`); out come the types, signatures, members, methods
//! with arguments and locals that have rows. `rules/specs/merge_rules/Refs` defines them (`type_refs` and the like).

mod instances;
mod locals;
mod members;
mod owners;
mod specs;
mod types;

pub use instances::method_specs;
pub use locals::locals_sigs;
pub use members::member_refs;
pub use specs::type_specs;
pub use types::type_refs;
