//! The keep list: a line for each kept type, field, method, property and event of the inputs. In go a world with its tables
//! (`mark_tables`) and the kept items; out comes `keep_list` of `rules/specs/mark_rules/KeepList` in UTF-8.
#![tactic(auto)]

mod chain;
mod digits;
mod line;
mod listed;
pub mod lists;
mod mapped;
mod members;
mod texts;
