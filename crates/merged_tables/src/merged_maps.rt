//! The rows of PropertyMap and EventMap in the output (II.22.35, II.22.12): in go the assemblies of a world, the kept items and
//! the tables of the output, out come the rows whose runs keep a row. `rules/specs/merge_rules/Restricted` defines them.

pub mod event_maps;
pub mod laws;
pub mod property_maps;
mod runs;
