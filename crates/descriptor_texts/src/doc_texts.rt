//! The names of methods with their parameters, as documentation writes them: `M(System.Int32,N.C[],System.String@)`. In go the
//! names of a world's types (`type_names`), a name and a signature with types; out comes a text, or None, as `doc_text` and
//! `doc_name` of `rules/specs/mark_rules/Dependencies` have it.

mod names;
mod types;

pub use names::doc_name;
pub use types::doc_text;
