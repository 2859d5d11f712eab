//! The constructors of attributes that are written (II.22.10): in go an assembly of a world with what its tokens have keys by
//! (`token_keys`) and the token of a constructor; out comes the key by which the output names it, or nothing where the attribute is left
//! out. `rules/specs/merge_rules/Attributes` defines it (`constructor_key`).

mod absent;
mod constructors;

pub use constructors::constructor_key;
