//! The tables by which questions on the types of a world are answered. They have the world, its members by name and its rows by the
//! types that these belong to, and are made once. Methods by their ids and rows are here too.
#![tactic(auto)]

pub mod groups;
pub mod member_search;
pub mod methods;
pub mod subtypes;
pub mod tables;
