//! The rules of marking over numbers of facts, as rules of `queued_closure`. In go a world with its tables and the rules by name;
//! each number brings others, alone and with known ones, as `mark_numbers/specs/mark_laws/Brings` defines it.

pub mod by_numbers;
pub mod laws;
pub mod lists;
