//! Where the code of a method asks for members of a type or for a type by its name, and what reaches there. A world with its tables
//! (`mark_tables`), a method and the flow of its values go in; the sites come out, as `site_rules` lists them.
#![tactic(auto)]

mod body;
mod calls;
pub mod generic_sites;
pub mod item_sites;
mod methods;
mod names;
mod reflected;
mod uses;
mod values;

pub use crate::item_sites::types::type_sites;
pub use methods::{plain_sites, sites};
pub use site_kinds::failing::fails;
