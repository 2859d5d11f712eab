//! Which kinds of members annotations promise, which the members of reflection ask for, and when a source fails at a target. A
//! world with its tables (`mark_tables`) goes in, and each answer is `site_rules`'.
#![tactic(auto)]

pub mod annotated;
pub mod annotation_flags;
pub mod failing;
pub mod known;
pub mod reflection;
pub mod texts;
