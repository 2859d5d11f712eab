//! The methods of a linked world by their places in it, with their bodies and the instructions of these by IL offset. A world
//! goes in, and what comes out answers as `rules/specs/view_rules/Methods` has it.

pub mod defined;
pub mod methods;
pub mod outside;
pub mod rows;
pub mod signatures;
