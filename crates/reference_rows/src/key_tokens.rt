//! The tokens of the output of a merge by the keys of what is named: in go keys of types, methods, fields, methods with arguments and
//! locals (`key_codes`), the references that the output makes, each once (`met_keys`), and the kept rows (`merge_plan`); out come the
//! tokens by which rows and code name them. `rules/specs/merge_rules/Refs` defines them (`key_token`, `method_token` and the like).

mod kept;
pub mod laws;
mod tokens;

pub use tokens::KeyTokens;
