//! Fields: `ldfld`, `ldflda`, `stfld`, `ldsfld`, `ldsflda`, `stsfld` (III.4.10, III.4.11, III.4.14, III.4.15, III.4.28, III.4.30).
//! In goes a state at the instruction; out comes what the step comes to, as `rules/specs/step_rules/Fields` has it.

mod bytes;
mod cells;
mod fields;
mod flags;
mod forms;
mod parts;
mod placed;
mod places;
mod static_fields;
mod statics;

pub use flags::{is_literal, is_static};
pub use forms::field_form;
pub use places::reach_field;
pub use statics::{Ready, static_type, with_static};
