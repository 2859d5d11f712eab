//! What a linked world answers on closed types: which can stand for which, what a virtual call runs, texts, the type that a text
//! names, the members that reflection finds, and the nearest type of the core library. A world that a link gave goes in, and each
//! answer is that of `rules/specs/view_rules/Answers`.

mod accessors;
pub mod answered;
pub mod bases;
pub mod core_rows;
pub mod kin;
pub mod owners;
pub mod reflected;
pub mod sought;
mod types;

pub use types::ClosedTypes;
