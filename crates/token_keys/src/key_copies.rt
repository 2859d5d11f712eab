//! Copies of keys (`key_codes`): in go signatures (II.23.2), and keys of types, methods, fields and methods with arguments, out come
//! the same.

pub mod keys;
pub mod sigs;
