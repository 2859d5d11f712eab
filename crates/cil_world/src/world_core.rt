//! The core library as the machine sees it: which member each of its methods is, and where its types and the slots that it
//! calls stand in a world (`rules/specs/view_rules/Members`).

mod calls;
mod members;
mod rows;

pub use members::core_call;
pub use rows::{core_type_row, equals_row, to_string_row};
