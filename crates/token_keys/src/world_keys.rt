//! The assemblies of a world with the numbers of the types that their tokens name. In go a world with its tables (`mark_tables`)
//! and the references of the inputs that name nothing (`absent_types`); out come the numbers of all assemblies, and each assembly
//! with what its tokens have keys by (`token_keys`).

mod keys;
mod numbers;

pub use keys::WorldKeys;
pub use numbers::all_numbers;
