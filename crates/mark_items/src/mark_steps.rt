//! The needs of one marked row: the rules of `mark_needs` and `mark_calls` together. In go a world with its tables and a row; out
//! come facts, as `rules/specs/mark_rules/Marking` lists them.

pub mod row_needs;
