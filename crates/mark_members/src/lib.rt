//! The members of a type by their kinds, all kinds together, as items. In go a world with its tables (`mark_tables`,
//! `nested_types`), a row of a type and kinds (`rules::mark_rules::member_kinds`); out comes `members_by` of
//! `rules/specs/mark_rules/Members`, in its order.
#![tactic(auto)]

pub mod called_members;
pub mod items;
mod levels;
pub mod mark_kinds;
pub mod mark_starts;
pub mod mark_whole;
pub mod members;
mod nested;
