//! What a linked world answers to the machine. A world that a link gave goes in; out comes a `View`, whose answers are those of
//! `rules/specs/view_rules/Answers`.
#![tactic(auto)]

mod kept;
mod view;
pub mod world_code;
pub mod world_core;
pub mod world_definitions;
pub mod world_layouts;
pub mod world_methods;
pub mod world_types;

pub use view::View;
