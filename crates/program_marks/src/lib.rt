//! What a program needs, and the first item of it that is outside the profile or names nothing. In go the world that a link gave,
//! an entry method by its row, and the elements of descriptors; the tables of the world are made here.
#![tactic(auto)]

pub mod named_world;
mod needs;

pub use needs::{Needs, needs_of};
