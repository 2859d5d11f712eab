//! Members of String, and Int32.Parse. In go the arguments, `this` first; out comes what the call comes to, as
//! `rules/specs/step_rules/CoreTexts` has it. Places and lengths count UTF-16 units.

mod comparisons;
mod numbers;
mod orders;
mod parts;
mod units;

pub use comparisons::{string_is, string_is_empty, string_itself, string_other, string_same};
pub use numbers::int_parse;
pub use orders::string_compare;
pub use parts::{string_concat, string_from, string_part};
pub use units::{string_index, string_length, string_unit};
