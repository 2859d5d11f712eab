//! What the rules of marking ask of a world, made once: its tables (`type_tables`), and of each assembly the rows by what they
//! belong to, the types that have fields, properties and events, and the enclosers of nested types.

pub mod assembly;
pub mod enclosers;
mod impl_bodies;
pub mod keys;
pub mod marker;
pub mod owners;
