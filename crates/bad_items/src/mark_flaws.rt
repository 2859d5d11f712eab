//! What is wrong with items of the profile: their own rows, and parts that name nothing or have no reading. In go a world with its
//! tables (`mark_tables`) and an item; out come flaws, as `rules/specs/mark_rules/BadItems` lists them.

mod fields;
pub mod flaw;
pub mod flaws;
mod generics;
mod globals;
pub mod items;
mod methods;
mod own;
mod parts;
pub mod tables;
mod types;
