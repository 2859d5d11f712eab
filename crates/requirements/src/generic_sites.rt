//! Generic arguments for annotated parameters, in the parts of items. A world with its tables (`mark_tables`) and what a part names
//! go in; the sites come out at the end of a list, as `site_kinds/specs/site_rules/Arguments` lists them.

pub mod arguments;
pub mod asking;
pub mod links;
pub mod named;
pub mod operands;
