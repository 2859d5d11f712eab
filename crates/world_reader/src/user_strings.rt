//! The texts that the `ldstr` of method bodies name (III.4.16), each once and in the order of their places in `#US`.
//! `rules/specs/record_format/Texts` defines them.

mod texts;

pub use texts::texts_of;
