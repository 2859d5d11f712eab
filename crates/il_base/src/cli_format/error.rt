use crate::{BadAt, NoMemory};
use std::alloc::{AllocError, AllocFailed};

/// The error of reading tables.
#[derive(Clone, Copy, Debug, PartialEq, Eq)]
pub enum TablesError {
    /// The file is refused.
    Bad(BadAt),
    /// A table has more rows than 1048576.
    Rows {
        /// The number of its rows.
        found: u64,
    },
    /// The allocator refused.
    NoMemory,
}

impl From<NoMemory> for TablesError {
    ghost use Rattle.std.specs.Prelude.{◌≡◌};
    ghost use Rattle.il_base.specs.declared.cli_format.error.TablesError.TheVariants as errors;

    ghost from_gives = { λ _ e. e ≡ errors.NoMemory };

    fn from(_error: NoMemory) -> TablesError {
        TablesError::NoMemory
    }
}

impl From<AllocError> for TablesError {
    ghost use Rattle.std.specs.Prelude.{◌≡◌};
    ghost use Rattle.il_base.specs.declared.cli_format.error.TablesError.TheVariants as errors;

    ghost from_gives = { λ _ e. e ≡ errors.NoMemory };

    fn from(_error: AllocError) -> TablesError {
        TablesError::NoMemory
    }
}

impl<T: Drop> From<AllocFailed<T>> for TablesError {
    ghost use Rattle.std.specs.Prelude.{◌≡◌};
    ghost use Rattle.il_base.specs.declared.cli_format.error.TablesError.TheVariants as errors;

    ghost from_gives = { λ _ e. e ≡ errors.NoMemory };

    fn from(_error: AllocFailed<T>) -> TablesError {
        TablesError::NoMemory
    }
}
