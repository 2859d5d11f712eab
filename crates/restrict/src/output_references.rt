//! What the output of a merge refers to, each once, in the order in which it is met: in go a world with its keys (`world_keys`), the kept
//! items, and the attributes that are written (`merged_attributes`); out come the types, signatures, members, methods with arguments and
//! locals that have reference rows. `rules/specs/merge_rules/Refs` defines them.

mod met;
mod references;

pub use met::output_mets;
pub use references::{OutputReferences, output_references};
