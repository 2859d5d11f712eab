//! The definitions of a linked world by their places in it: methods with their bodies and instructions, fields, heads of types,
//! initializers and enclosers. A world goes in, and each answer is that of `view_rules`, by an index into a table that was made once.

mod definitions;
mod field_rows;
pub mod fields;
mod type_rows;
pub mod types;

pub use definitions::Definitions;
