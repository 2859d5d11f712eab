//! The core library with the names that modifiers use. In go the inputs and the core library's record, out comes the record
//! with a type without members for each name that it lacks. `rules/specs/link_rules/CoreNames` defines that record.

mod forwarding;
mod missing;
mod modifiers;
mod with_names;

pub use missing::missing_names;
pub use with_names::add_names;
