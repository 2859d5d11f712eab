//! The texts of `ldstr` in the output of a merge (III.4.16): in go the assemblies of a world and the kept methods; out come the texts
//! that these load, each once, in the order of bodies, their tokens by their places in `#US` (II.24.2.4), and what the tokens of each
//! assembly become. `rules/specs/merge_rules/Moved` defines them (`kept_texts`, `text_token`, `moved_text`).

pub mod laws;
mod loads;
mod met;
mod places;
mod tokens;

pub use met::texts_met;
pub use places::Places;
pub use tokens::text_tokens;
