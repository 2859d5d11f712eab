//! Where code asks for members of a type or for a type by its name, and when a source doesn't have what is asked, as definitions in
//! `specs/site_rules/`. Nothing goes in or comes out.

pub mod examples;
mod site;
mod target;

pub use site::Site;
pub use target::Target;
