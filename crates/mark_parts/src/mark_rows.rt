//! The rows of a type: its methods, fields, properties and events, its initializer, the constructor by which reflection makes
//! objects, and the types that have properties and events.
//! In go a world with its tables (`mark_tables`) and a row; the results are `type_rules`' and `mark_rules`'.

pub mod initializers;
pub mod makers;
pub mod members;
pub mod rows;
pub mod runs;
