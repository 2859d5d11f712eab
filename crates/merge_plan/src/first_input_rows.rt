//! The rows of the first input that stay in the output: its Module and Assembly rows, and its flags in the CLI header (II.22.30,
//! II.22.2, II.25.3.3.1). `rules/specs/merge_rules/Restricted` defines them.

pub mod assemblies;
pub mod header;
pub mod modules;
