//! The sites of types, of their fields, interface rows, properties and events, and of the signatures and locals of methods. A world
//! with its tables (`mark_tables`) and a row go in; the sites come out, as `site_kinds/specs/site_rules/Types` and `Bodies` list
//! them.

pub mod heads;
pub mod types;
